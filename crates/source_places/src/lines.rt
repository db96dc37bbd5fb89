// The lines of a text.
ghost use Rattle.std.specs.Prelude.{◌≡◌};
ghost use Rattle.source_places.specs.Starts.{starts_of};

/// The lines of a text. Each ends at a line feed; what stands behind the last one is a line too.
#[derive(Drop)]
pub struct Lines<'a> {
    pub(crate) text: &'a [u8],
    // where each line but the first one starts
    pub(crate) starts: Vec<usize>,
    pub(crate) ghost indexed: { starts.items ≡ starts_of 0 text.now },
}
