// A row as rules see its tokens.

ghost use Rattle.rules.specs.RowSeen.{SomeRow};

// The kinds and byte offsets of a row's tokens, and the file in which their words stand.
#[derive(Clone, Copy)]
pub struct RowText<'a> {
    pub file: &'a [u8],
    pub kinds: &'a [u8],
    pub places: &'a [u32],
    ghost seen: { ∥ SomeRow file.now kinds.now places.now ∥₁ },
}
