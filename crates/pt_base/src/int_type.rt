// The integer types of the language.
ghost use Rattle.std.specs.Prelude.{◌≡◌};
ghost use Rattle.pt_base.specs.IntTypes as is;

/// An integer type: two's complement where it is signed, 8 bits for the kinds of `char`, 16 for
/// those of `short`, 32 for those of `int` and 64 for those of `long`.
#[derive(Clone, Copy, Debug, PartialEq, Eq)]
pub enum IntType {
    /// `char`, which is signed.
    Char,
    /// `signed char`
    SChar,
    /// `unsigned char`
    UChar,
    /// `short`
    Short,
    /// `unsigned short`
    UShort,
    /// `int`
    Int,
    /// `unsigned int`
    UInt,
    /// `long`
    Long,
    /// `unsigned long`
    ULong,
}

impl IntType {
    // The place of the type in the list of the integer types.
    fn place(self) -> u8
        ensures { result ≡ is.place_of self }
    {
        match self {
            IntType::Char => 0,
            IntType::SChar => 1,
            IntType::UChar => 2,
            IntType::Short => 3,
            IntType::UShort => 4,
            IntType::Int => 5,
            IntType::UInt => 6,
            IntType::Long => 7,
            IntType::ULong => 8,
        }
    }
}

/// Whether they are one type: `char` is neither `signed char` nor `unsigned char` (C99 6.2.5p15).
pub fn same_int(a: IntType, b: IntType) -> bool
    ensures { result ≡ is.same_int a b }
{
    a.place() == b.place()
}
