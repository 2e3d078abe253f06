// Lab traces: what a program that owns the socket records, and how it reads that.
ghost use Rattle.std.specs.Prelude.{◌≡◌};
ghost use Rattle.trace_format.specs.Format.{read_file_head, read_in, edition_of};
ghost use Rattle.trace_format.specs.Records.{file_head_bytes, head_writable, record_bytes, writable, written_edition};
ghost use Rattle.trace_writer.specs.Answers.{record_with, written_of};
ghost use Rattle.trace_places.specs.Places.{written_number, place_behind};
ghost use Rattle.connection.specs.Reading.{flag};
ghost use Rattle.smb3seal.specs.Traces.{WritesTrace, ReadsHead, ReadsRecord, RescuesTrace};

use trace_format::Unreadable;

// The number of a writing. The place of the next record is behind what was written.
fn reported(written: Result<usize, Unreadable>, at: &mut usize) -> u32
    ensures number { result ≡ written_number (written_of written) }
    ensures place { at.new ≡ place_behind (written_of written) at.old }
{
    match written {
        Ok(behind) => {
            *at = behind;
            0
        }
        Err(refusal) => u32::from(refusal),
    }
}

// Writes the head of a trace at the start of the room.
pub fn smb3seal_trace_head(
    edition: u8,
    dialect: u16,
    cipher: u16,
    trace: &mut [u8],
    at: &mut usize,
) -> u32
    ensures { WritesTrace (head_writable edition cipher) (file_head_bytes edition dialect cipher) trace.old 0 result trace.new at.old at.new }
{
    reported(
        trace_writer::write_file_head(edition, dialect, cipher, trace),
        at,
    )
}

// Writes a record at a place of the room.
pub fn smb3seal_trace_record(
    kind: u32,
    from_server: u32,
    payload: &[u8],
    trace: &mut [u8],
    at: &mut usize,
) -> u32
    ensures { WritesTrace (writable (edition_of written_edition) (record_with kind (flag from_server) payload.now)) (record_bytes (edition_of written_edition) (record_with kind (flag from_server) payload.now)) trace.old at.old result trace.new at.old at.new }
{
    let written = trace_writer::write_record(kind, from_server != 0, payload, trace, *at);
    reported(written, at)
}

// Reads the head of a trace.
pub fn smb3seal_trace_read_head(
    trace: &[u8],
    edition: &mut u8,
    dialect: &mut u16,
    cipher: &mut u16,
) -> u32
    ensures { ReadsHead (read_file_head trace.now) result edition.old edition.new dialect.old dialect.new cipher.old cipher.new }
{
    match trace_reader::read_file_head(trace) {
        Ok(head) => {
            *edition = head.edition;
            *dialect = head.dialect;
            *cipher = u16::from(head.cipher);
            0
        }
        Err(refusal) => u32::from(refusal),
    }
}

// Reads the record at a place of a trace. At the end the payload's length is 0, which no record has.
pub fn smb3seal_trace_read(
    trace: &[u8],
    at: &mut usize,
    kind: &mut u32,
    from_server: &mut u32,
    payload: &mut usize,
    payload_len: &mut usize,
) -> u32
    ensures { ReadsRecord (read_in trace.now at.old) result at.old at.new kind.old kind.new from_server.old from_server.new payload.old payload.new payload_len.old payload_len.new }
{
    match trace_reader::read_in(trace, *at) {
        Ok(Some(record)) => {
            *at = record.next;
            *kind = u32::from(record.kind);
            *from_server = u32::from(record.from_server);
            *payload = record.start;
            *payload_len = record.len;
            0
        }
        Ok(None) => {
            *payload_len = 0;
            0
        }
        Err(refusal) => u32::from(refusal),
    }
}

// Copies what is good of a damaged trace, and lists its gaps.
pub fn smb3seal_trace_rescue(
    trace: &[u8],
    rescued: &mut [u8],
    gaps: &mut [u64],
    written: &mut usize,
    count: &mut usize,
) -> u32
    ensures { RescuesTrace trace.now result rescued.old rescued.new gaps.old gaps.new written.old written.new count.old count.new }
{
    match trace_rescue::rescue(trace, rescued, gaps) {
        Ok(done) => {
            *written = done.written;
            *count = done.gaps;
            0
        }
        Err(refusal) => u32::from(refusal),
    }
}
