// The rules that the walk tests at a header. The header that passes is judged from then on.
ghost use Rattle.std.specs.Prelude.{◌≡◌, ◌+◌};
ghost use Rattle.compound.specs.Walking.{First, Ahead, Next};
ghost use Rattle.compound.specs.Reading.{envelope_of};

use crate::Envelope;
use crate::header::InnerHeader;
use answer::{Refusal, refuse};

// The first header: 11, 12, 13, 14.
pub fn first(message: &[u8], e: Envelope) -> Result<InnerHeader, Refusal>
    ensures { First message.now (envelope_of e) result }
{
    if message.len() < 64 {
        return Err(Refusal::InnerTooShort);
    }
    let header = InnerHeader { message, at: 0 };
    refuse(!header.begins(), Refusal::NotHeader)?;
    refuse(header.is_related(), Refusal::FirstRelated)?;
    refuse(!header.belongs(e), Refusal::InnerSession)?;
    Ok(header)
}

// The header so many bytes after this one: 15, 16, 12, 14.
fn ahead(header: InnerHeader, d: usize, e: Envelope) -> Result<InnerHeader, Refusal>
    ensures { Ahead header.entry.message.now (envelope_of e) header.entry.at d result }
{
    // the header ends inside, so this difference does not wrap, where the sum of the places could
    let left = header.message.len() - header.at - 64;
    if (d < 64) | (left < d) {
        return Err(Refusal::NextOutside);
    }
    refuse(d % 8 != 0, Refusal::NextUnaligned)?;
    let next = InnerHeader {
        message: header.message,
        at: header.at + d,
    };
    refuse(!next.begins(), Refusal::NotHeader)?;
    refuse(!next.is_related() & !next.belongs(e), Refusal::InnerSession)?;
    Ok(next)
}

// The header after this one, if there is one.
pub fn next(header: InnerHeader, e: Envelope) -> Result<Option<InnerHeader>, Refusal>
    ensures { Next header.entry.message.now (envelope_of e) header.entry.at result }
{
    match header.next_command() {
        0 => Ok(None),
        d => Ok(Some(ahead(header, d, e)?)),
    }
}
