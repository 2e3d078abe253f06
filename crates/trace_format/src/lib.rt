// The format of lab traces (RULES 16): what an edition fixes, and what reader and writer share.
#![tactic(auto)]

ghost use Rattle.std.specs.Prelude.{◌≡◌, IfSome, is_some};
ghost use Rattle.trace_format.specs.Format.{Edition, edition_of, known, admitted, unreadable_number};
ghost use Rattle.trace_format.specs.Layouts.{IsEdition};

// What a reader cannot read: the refusal of the reader, of the writer, which writes nothing else, and of a rescue.
#[derive(Clone, Copy, Debug, PartialEq, Eq)]
pub struct Unreadable;

// Its number, for a caller from C.
impl From<Unreadable> for u32 {
    fn from(_refusal: Unreadable) -> u32
        ensures { result ≡ unreadable_number }
    {
        36
    }
}

// The weight of the length's lowest bit, below which are the zero bits, and the longest payload.
#[derive(Clone, Copy)]
pub struct Layout {
    pub unit: usize,
    pub longest: usize,
}

// The kinds are numbers, as in the calls from C (`smb3seal_trace_record`, `smb3seal_trace_read`): any number is asked about.
impl Layout {
    // Of edition 1.
    pub const FIRST: Layout = Layout {
        unit: 128,
        longest: 1048628,
    };

    // Of edition 2.
    pub const SECOND: Layout = Layout {
        unit: 16,
        longest: 8454196,
    };

    // Whether a record of this kind may have a payload of n bytes.
    pub fn admits(self, kind: usize, n: usize) -> bool
        ensures { (e : Edition) → IsEdition self e → result ≡ admitted e kind n }
    {
        kind <= 3 && 1 <= n && n <= self.longest && (kind != 3 || n == 24)
    }
}

// Of an edition that is not known no payload is readable.
pub fn layout_of(edition: u8) -> Option<Layout>
    ensures is { IfSome result (λ l. IsEdition l (edition_of edition)) }
    ensures there { is_some result ≡ known edition }
{
    match edition {
        1 => Some(Layout::FIRST),
        2 => Some(Layout::SECOND),
        _ => None,
    }
}
