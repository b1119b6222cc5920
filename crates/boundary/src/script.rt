// Scripts of calls by client. A call is its kind, the client, and then for an open (0) the pane's left, top, right and bottom, for a close (1) or a taking (5) nothing,
// and for a write (2), a block return (3) or a block restore (4) a length of two bytes, low byte first, and that many bytes.
ghost use Rattle.std.specs.Prelude.{◌≡◌, ◌<◌, length, MatchOption};
ghost use Rattle.boundary.specs.Script.{lent_of, IsTail};

use rectangle::Rect;

#[derive(Clone, Copy)]
pub enum Request<'a> {
    Open(Rect),
    Close,
    Write(&'a [u8]),
    ReturnBlock(&'a [u8]),
    RestoreBlock(&'a [u8]),
    TakeMarks,
}

// A call, and the rest of the script after it.
#[derive(Clone, Copy)]
pub struct Call<'a> {
    pub client: u8,
    pub request: Request<'a>,
    pub rest: &'a [u8],
}

impl<'a> Request<'a> {
    // The bytes that a block return hands out into. Any other call has none to change.
    pub fn lent_block(self) -> &'a [u8]
        ensures { result.now ≡ lent_of self.entry }
    {
        match self {
            Request::ReturnBlock(block) => block,
            _ => &[],
        }
    }
}

// The bytes behind their length, and what comes after them. None if they are cut off.
fn split_counted<'a>(script: &'a [u8]) -> Option<(&'a [u8], &'a [u8])>
    ensures { MatchOption result (Unit {0}) (λ parts. IsTail script.now parts.1.now) }
{
    let (count, rest) = script.split_first_chunk::<2>()?;
    rest.split_at_checked(u16::from_le_bytes(*count) as usize)
}

// The request of a kind, and what comes after its arguments. None if they are cut off, and at an unknown kind.
fn parse_request<'a>(kind: u8, script: &'a [u8]) -> Option<(Request<'a>, &'a [u8])>
    ensures { MatchOption result (Unit {0}) (λ parts. IsTail script.now parts.1.now) }
{
    match kind {
        0 => {
            let (&[left, top, right, bottom], rest) = script.split_first_chunk::<4>()?;
            let pane = Rect {
                left,
                top,
                right,
                bottom,
            };
            Some((Request::Open(pane), rest))
        }
        1 => Some((Request::Close, script)),
        2..=4 => {
            let (bytes, rest) = split_counted(script)?;
            let request = match kind {
                2 => Request::Write(bytes),
                3 => Request::ReturnBlock(bytes),
                _ => Request::RestoreBlock(bytes),
            };
            Some((request, rest))
        }
        5 => Some((Request::TakeMarks, script)),
        _ => None,
    }
}

// The first call of the script. None at its end, in a call that is cut off and at an unknown kind.
pub fn parse_call<'a>(script: &'a [u8]) -> Option<Call<'a>>
    ensures tail { MatchOption result (Unit {0}) (λ call. IsTail script.now call.rest.now) }
    ensures shorter { MatchOption result (Unit {0}) (λ call. length call.rest.now < length script.now) }
{
    let (&[kind, client], arguments) = script.split_first_chunk::<2>()?;
    let (request, rest) = parse_request(kind, arguments)?;
    Some(Call {
        client,
        request,
        rest,
    })
}
