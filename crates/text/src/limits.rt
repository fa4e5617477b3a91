// The limits of the text layer.

// Bytes of a whole text.
pub(crate) const TEXT: usize = 65535;

// Bytes of a name.
pub(crate) const NAME: usize = 63;

// Bytes between the quotes of a symbol, an escape as two.
pub(crate) const SYMBOL: usize = 255;

// Brackets open at one time.
pub(crate) const OPEN: usize = 64;
