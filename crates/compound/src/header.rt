// The fields of an inner header (MS-SMB2 2.2.1.2).
ghost use Rattle.std.specs.Prelude.{◌≡◌, ◌+◌, ◌≤◌, length};
ghost use Rattle.protocol.specs.InnerHeader.{is_inner_header, is_related, next_command, inner_session_id, is_break_notice, belongs};
ghost use Rattle.compound.specs.Reading.{envelope_of};

use crate::Envelope;
use little_endian::number_at;
use protocol_id::begins;

// The header at a place of a message, which is wholly inside.
#[derive(Clone, Copy)]
pub struct InnerHeader<'a> {
    pub message: &'a [u8],
    pub at: usize,
    ghost inside: { at + 64 ≤ length message.now },
}

impl InnerHeader<'_> {
    pub fn begins(self) -> bool
        ensures { result ≡ is_inner_header self.entry.message.now self.entry.at }
    {
        begins(self.message, self.at, 0xFE)
    }

    pub fn is_related(self) -> bool
        ensures { result ≡ is_related self.entry.message.now self.entry.at }
    {
        number_at::<4>(self.message, self.at + 16) / 4 % 2 == 1
    }

    pub fn next_command(self) -> usize
        ensures { result ≡ next_command self.entry.message.now self.entry.at }
    {
        number_at::<4>(self.message, self.at + 20) as usize
    }

    fn session_id(self) -> u64
        ensures { result ≡ inner_session_id self.entry.message.now self.entry.at }
    {
        number_at::<8>(self.message, self.at + 40)
    }

    // A break notice (RULES 9.9): Command, MessageId and SessionId as MS-SMB2 2.2.23 has them.
    fn is_break_notice(self) -> bool
        ensures { result ≡ is_break_notice self.entry.message.now self.entry.at }
    {
        let command = number_at::<2>(self.message, self.at + 12);
        let message_id = number_at::<8>(self.message, self.at + 24);
        (command == 0x0012) & (message_id == 0xFFFFFFFFFFFFFFFF) & (self.session_id() == 0)
    }

    // Number 14 is not given: the header has the session's id, or is a break notice from the server.
    pub fn belongs(self, e: Envelope) -> bool
        ensures { result ≡ belongs self.entry.message.now (envelope_of e) self.entry.at }
    {
        (e.from_server & self.is_break_notice()) | (self.session_id() == e.id)
    }
}
