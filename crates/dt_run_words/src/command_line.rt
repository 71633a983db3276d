//! What is asked of the tool.

ghost use Rattle.std.specs.Prelude.{length};
ghost use Rattle.dt_run_words.specs.Asked.{IsAsked, IsAsked-prop};

/// What the tool can be asked for.
#[derive(Clone, Copy, PartialEq, Eq)]
pub enum Job<'a> {
    /// A blob of one devicetree source: of a base, or of an overlay, which is its object.
    Compile,
    /// A blob of a source that is no overlay's, as it is: bookkeeping nodes may be written, and nothing is added.
    CompileRaw,
    /// The blob of a base, which is the first input, with the objects of overlays applied, which are the others.
    Apply,
    /// The blob of a base's source, which is the first input, with the overlays of other sources applied.
    Build,
    /// The source of a blob.
    Print,
    /// A line with the numbers of nodes, properties and reservations of a blob.
    Check,
    /// The regions of a blob's nodes, in lines.
    Regs,
    /// The routes of its interrupts, in lines.
    Irqs,
    /// What the node of a path reaches by DMA where it puts an address and a size, in bytes, on its bus, in a line.
    Dma {
        path: &'a str,
        address: u64,
        size: u64,
    },
    /// Where the specifier of an index in a property of the node of a path comes to, by the maps of a kind, in a line.
    Spec {
        path: &'a str,
        property: &'a str,
        kind: &'a str,
        index: u64,
    },
}

/// What the words of a command line ask for.
#[derive(Drop)]
pub struct Line<'a> {
    /// What to do.
    pub job: Job<'a>,
    /// Whether a blob is written as hexadecimal; false where none is written.
    pub hex: bool,
    /// The names of the inputs' files, in order.
    pub files: Vec<&'a str>,
    ghost as_asked: { IsAsked job (length files.items) } by { IsAsked-prop job (length files.items) },
}
