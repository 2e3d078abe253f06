// What replays a lab trace (RULES 16): a record at a place of a lent file, what it does in the lab, and which line comes out.
#![tactic(auto)]

ghost use Rattle.trace_format.specs.Format.{edition_of, read_at};
ghost use Rattle.lab_state.specs.Reading.{state_of};
ghost use Rattle.lab.specs.Reading.{Turns};

pub use lab_state::Lab;
use lab_steps::step;

// The payload that the replay holds; a longer one gets "long" for its number.
pub const HELD: usize = 65536;

// What is to be written of a record. The replay goes on after the first two.
#[derive(Clone, Copy)]
pub enum Line {
    // its answer number
    Number(u32),
    Long,
    // the place of a record that cannot be read
    Stop(usize),
    End,
}

// What a record gives: its line, the place of the next one, and the lab after it.
#[derive(Clone, Copy)]
pub struct Turn {
    pub line: Line,
    pub next: usize,
    pub lab: Lab,
}

pub fn replay_at(edition: u8, lab: Lab, file: &mut [u8], at: usize) -> Turn
    ensures { Turns (read_at (edition_of edition) file.old at) (state_of lab) file.old file.new at result }
{
    match trace_reader::read_record(edition, file, at) {
        Ok(Some(record)) if record.len <= HELD => {
            let mut after = lab;
            let number = step(
                &mut after,
                record.kind,
                record.from_server,
                &mut file[record.start..record.next],
            );
            Turn {
                line: Line::Number(number),
                next: record.next,
                lab: after,
            }
        }
        Ok(Some(record)) => Turn {
            line: Line::Long,
            next: record.next,
            lab,
        },
        Ok(None) => Turn {
            line: Line::End,
            next: at,
            lab,
        },
        Err(_) => Turn {
            line: Line::Stop(at),
            next: at,
            lab,
        },
    }
}
