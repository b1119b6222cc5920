// Laws that most crates use and that say nothing of a console: tests as facts, chains of choices, tabulated lists. There is no code here.
#![tactic(auto)]
