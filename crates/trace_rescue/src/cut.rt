// The piece at a place: a good record, or a gap up to where the reader takes up again.
ghost use Rattle.std.specs.Prelude.{◌≡◌, ◌<◌, ◌≤◌, length, drop};
ghost use Rattle.trace_format.specs.Format.{edition_of};
ghost use Rattle.trace_rescue.specs.Rescue.{begins_message, is_found, passed};
ghost use Rattle.trace_rescue.specs.Answers.{RecordAt, Cuts};

use protocol_id::begins;
use trace_reader::{Record, read_record};

// A trace, whose records are read by this edition.
#[derive(Clone, Copy)]
pub struct Trace<'a> {
    pub edition: u8,
    pub file: &'a [u8],
}

// A piece of a trace, of so many bytes.
#[derive(Clone, Copy, Debug, PartialEq, Eq)]
pub enum Cut {
    Record(usize),
    Gap(usize),
}

fn begins_message(payload: &[u8]) -> bool
    ensures { result ≡ begins_message payload.now }
{
    begins(payload, 0, 0xFE) || begins(payload, 0, 0xFD)
}

impl Trace<'_> {
    // The record at a place, where one can be read.
    fn record_at(&self, at: usize) -> Option<Record>
        ensures { RecordAt (edition_of self.now.edition) self.now.file.now at result }
    {
        read_record(self.edition, self.file, at).unwrap_or(None)
    }

    // Whether the reader takes up again here. Whatever length a head says, a head and four bytes are all that is read.
    fn is_found(&self, at: usize) -> bool
        ensures { result ≡ is_found (edition_of self.now.edition) (drop at self.now.file.now) }
    {
        let Some(record) = self.record_at(at) else {
            return false;
        };
        let may_begin = record.kind <= 2;
        may_begin && begins_message(&self.file[record.start..record.next])
    }

    // How many bytes stand before the next place where it does: each offset is looked at once.
    fn passed_over(&self, from: usize) -> usize
        requires { from ≤ length self.now.file.now }
        ensures { result ≡ passed (edition_of self.now.edition) (drop from self.now.file.now) }
    {
        for p in from..self.file.len() {
            if self.is_found(p) {
                return p - from;
            }
        }
        self.file.len() - from
    }

    pub fn cut_at(&self, at: usize) -> Cut
        requires { at < length self.now.file.now }
        ensures { Cuts (edition_of self.now.edition) self.now.file.now at result }
    {
        match self.record_at(at) {
            Some(record) => Cut::Record(record.next - at),
            None => Cut::Gap(self.passed_over(at + 1) + 1),
        }
    }
}
