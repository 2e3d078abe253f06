// The calls on lab traces, for C.
ghost use Rattle.trace_format.specs.Format.{read_file_head, read_in, edition_of};
ghost use Rattle.trace_format.specs.Records.{file_head_bytes, head_writable, record_bytes, writable, written_edition};
ghost use Rattle.trace_writer.specs.Answers.{record_with};
ghost use Rattle.connection.specs.Reading.{flag};
ghost use Rattle.smb3seal.specs.Traces.{WritesTrace, ReadsHead, ReadsRecord, RescuesTrace};

// Writes the head of a trace at the start of the room.
#[unsafe(no_mangle)]
pub extern "C" fn smb3seal_trace_head(
    edition: u8,
    dialect: u16,
    cipher: u16,
    trace: &mut [u8],
    at: &mut usize,
) -> u32
    ensures { WritesTrace (head_writable edition cipher) (file_head_bytes edition dialect cipher) trace.old 0 result trace.new at.old at.new }
{
    smb3seal::smb3seal_trace_head(edition, dialect, cipher, trace, at)
}

// Writes a record at a place of the room.
#[unsafe(no_mangle)]
pub extern "C" fn smb3seal_trace_record(
    kind: u32,
    from_server: u32,
    payload: &[u8],
    trace: &mut [u8],
    at: &mut usize,
) -> u32
    ensures { WritesTrace (writable (edition_of written_edition) (record_with kind (flag from_server) payload.now)) (record_bytes (edition_of written_edition) (record_with kind (flag from_server) payload.now)) trace.old at.old result trace.new at.old at.new }
{
    smb3seal::smb3seal_trace_record(kind, from_server, payload, trace, at)
}

// Reads the head of a trace.
#[unsafe(no_mangle)]
pub extern "C" fn smb3seal_trace_read_head(
    trace: &[u8],
    edition: &mut u8,
    dialect: &mut u16,
    cipher: &mut u16,
) -> u32
    ensures { ReadsHead (read_file_head trace.now) result edition.old edition.new dialect.old dialect.new cipher.old cipher.new }
{
    smb3seal::smb3seal_trace_read_head(trace, edition, dialect, cipher)
}

// Reads the record at a place of a trace.
#[unsafe(no_mangle)]
pub extern "C" fn smb3seal_trace_read(
    trace: &[u8],
    at: &mut usize,
    kind: &mut u32,
    from_server: &mut u32,
    payload: &mut usize,
    payload_len: &mut usize,
) -> u32
    ensures { ReadsRecord (read_in trace.now at.old) result at.old at.new kind.old kind.new from_server.old from_server.new payload.old payload.new payload_len.old payload_len.new }
{
    smb3seal::smb3seal_trace_read(trace, at, kind, from_server, payload, payload_len)
}

// Copies what is good of a damaged trace, and lists its gaps.
#[unsafe(no_mangle)]
pub extern "C" fn smb3seal_trace_rescue(
    trace: &[u8],
    rescued: &mut [u8],
    gaps: &mut [u64],
    written: &mut usize,
    count: &mut usize,
) -> u32
    ensures { RescuesTrace trace.now result rescued.old rescued.new gaps.old gaps.new written.old written.new count.old count.new }
{
    smb3seal::smb3seal_trace_rescue(trace, rescued, gaps, written, count)
}
