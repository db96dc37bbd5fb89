// The type words among specifiers (C99 6.7.2), and what other keywords say.
ghost use Rattle.std.specs.Prelude.{◌≡◌, [], ◌∷◌, ◌||◌, fold, count_by};
ghost use Rattle.std.specs.List.{list_any};
ghost use Rattle.check_declarations.specs.Words as is;

use pt_base::IntType;
use pt_tree::SpecWord;
use type_rules::Type;

/// How often a word stands in a list.
#[derive(Clone, Copy, PartialEq, Eq)]
pub enum Often {
    Never,
    Once,
    /// More than once.
    Again,
}

/// How often each type word stands in a list.
#[derive(Clone, Copy)]
pub struct TypeWords {
    pub void: Often,
    pub char: Often,
    pub short: Often,
    pub int: Often,
    pub long: Often,
    pub signed: Often,
    pub unsigned: Often,
}

impl TypeWords {
    /// No words.
    const NONE: TypeWords = TypeWords {
        void: Often::Never,
        char: Often::Never,
        short: Often::Never,
        int: Often::Never,
        long: Often::Never,
        signed: Often::Never,
        unsigned: Often::Never,
    };

    /// How often each type word stands in the list.
    pub(crate) fn of(words: &[SpecWord]) -> TypeWords
        ensures { result ≡ is.type_words words.now }
    {
        let mut counts = TypeWords::NONE;
        for word in words {
            counts = counts.with(*word);
        }
        counts
    }

    /// The same with one more word.
    fn with(self, word: SpecWord) -> TypeWords
        ensures { result ≡ is.with_word self word }
    {
        let mut counts = self;
        match word {
            SpecWord::Extern | SpecWord::Static | SpecWord::Const => {}
            SpecWord::Void => counts.void = counts.void.once_more(),
            SpecWord::Char => counts.char = counts.char.once_more(),
            SpecWord::Short => counts.short = counts.short.once_more(),
            SpecWord::Int => counts.int = counts.int.once_more(),
            SpecWord::Long => counts.long = counts.long.once_more(),
            SpecWord::Signed => counts.signed = counts.signed.once_more(),
            SpecWord::Unsigned => counts.unsigned = counts.unsigned.once_more(),
        }
        counts
    }

    /// Whether no type word stands there.
    pub(crate) fn are_none(&self) -> bool
        ensures { result ≡ is.same_words self.now is.no_words }
    {
        self.are(&[])
    }

    /// Whether these are the words of the list, in any order.
    #[tactic(auto, unfolding(crate::specs::Words::same_words))]
    fn are(&self, list: &[SpecWord]) -> bool
        ensures { result ≡ is.same_words self.now (is.type_words list.now) }
    {
        let other = TypeWords::of(list);
        self.void.is(other.void)
            && self.char.is(other.char)
            && self.short.is(other.short)
            && self.int.is(other.int)
            && self.long.is(other.long)
            && self.signed.is(other.signed)
            && self.unsigned.is(other.unsigned)
    }

    #[tactic(auto, unfolding(crate::specs::Words::are_one_of))]
    fn are_only(&self, list: &[SpecWord]) -> bool
        ensures { result ≡ is.are_one_of self.now (list.now ∷ []) }
    {
        self.are(list)
    }

    #[tactic(auto, unfolding(crate::specs::Words::are_one_of))]
    fn are_short(&self) -> bool
        ensures { result ≡ is.are_one_of self.now is.short_words }
    {
        self.are(&[SpecWord::Short])
            || self.are(&[SpecWord::Signed, SpecWord::Short])
            || self.are(&[SpecWord::Short, SpecWord::Int])
            || self.are(&[SpecWord::Signed, SpecWord::Short, SpecWord::Int])
    }

    #[tactic(auto, unfolding(crate::specs::Words::are_one_of))]
    fn are_unsigned_short(&self) -> bool
        ensures { result ≡ is.are_one_of self.now is.unsigned_short_words }
    {
        self.are(&[SpecWord::Unsigned, SpecWord::Short])
            || self.are(&[SpecWord::Unsigned, SpecWord::Short, SpecWord::Int])
    }

    #[tactic(auto, unfolding(crate::specs::Words::are_one_of))]
    fn are_int(&self) -> bool
        ensures { result ≡ is.are_one_of self.now is.int_words }
    {
        self.are(&[SpecWord::Int])
            || self.are(&[SpecWord::Signed])
            || self.are(&[SpecWord::Signed, SpecWord::Int])
    }

    #[tactic(auto, unfolding(crate::specs::Words::are_one_of))]
    fn are_unsigned(&self) -> bool
        ensures { result ≡ is.are_one_of self.now is.unsigned_words }
    {
        self.are(&[SpecWord::Unsigned]) || self.are(&[SpecWord::Unsigned, SpecWord::Int])
    }

    #[tactic(auto, unfolding(crate::specs::Words::are_one_of))]
    fn are_long(&self) -> bool
        ensures { result ≡ is.are_one_of self.now is.long_words }
    {
        self.are(&[SpecWord::Long])
            || self.are(&[SpecWord::Signed, SpecWord::Long])
            || self.are(&[SpecWord::Long, SpecWord::Int])
            || self.are(&[SpecWord::Signed, SpecWord::Long, SpecWord::Int])
    }

    #[tactic(auto, unfolding(crate::specs::Words::are_one_of))]
    fn are_unsigned_long(&self) -> bool
        ensures { result ≡ is.are_one_of self.now is.unsigned_long_words }
    {
        self.are(&[SpecWord::Unsigned, SpecWord::Long])
            || self.are(&[SpecWord::Unsigned, SpecWord::Long, SpecWord::Int])
    }

    /// The type that the words name by themselves.
    fn named(&self) -> Option<Type>
        ensures { result ≡ is.named_in is.combinations self.now }
    {
        let ty = if self.are_only(&[SpecWord::Void]) {
            Type::Void
        } else if self.are_only(&[SpecWord::Char]) {
            Type::Int(IntType::Char)
        } else if self.are_only(&[SpecWord::Signed, SpecWord::Char]) {
            Type::Int(IntType::SChar)
        } else if self.are_only(&[SpecWord::Unsigned, SpecWord::Char]) {
            Type::Int(IntType::UChar)
        } else if self.are_short() {
            Type::Int(IntType::Short)
        } else if self.are_unsigned_short() {
            Type::Int(IntType::UShort)
        } else if self.are_int() {
            Type::Int(IntType::Int)
        } else if self.are_unsigned() {
            Type::Int(IntType::UInt)
        } else if self.are_long() {
            Type::Int(IntType::Long)
        } else if self.are_unsigned_long() {
            Type::Int(IntType::ULong)
        } else {
            return None;
        };
        Some(ty)
    }
}

/// The type that keywords and struct specifiers name together, by the types of the latter.
pub(crate) fn named_type(keywords: &[SpecWord], structs: &[Type]) -> Option<Type>
    ensures { result ≡ is.named keywords.now structs.now }
{
    let words = TypeWords::of(keywords);
    match structs {
        [] => words.named(),
        [ty] if words.are_none() => Some(*ty),
        _ => None,
    }
}

/// Whether `const` is among the keywords.
pub(crate) fn has_const_word(keywords: &[SpecWord]) -> bool
    ensures { result ≡ list_any is.is_const_word keywords.now }
{
    keywords.iter().any(|w| is_const_word(*w))
}

/// Whether `extern` is among the keywords.
pub(crate) fn has_extern_word(keywords: &[SpecWord]) -> bool
    ensures { result ≡ list_any is.is_extern_word keywords.now }
{
    keywords.iter().any(|w| is_extern_word(*w))
}

/// How many storage words are among the keywords.
pub(crate) fn storage_words(keywords: &[SpecWord]) -> usize
    ensures { result ≡ count_by is.is_storage_word keywords.now }
{
    keywords.iter().filter(|w| is_storage_word(**w)).count()
}

fn is_const_word(word: SpecWord) -> bool
    ensures { result ≡ is.is_const_word word }
{
    matches!(word, SpecWord::Const)
}

fn is_extern_word(word: SpecWord) -> bool
    ensures { result ≡ is.is_extern_word word }
{
    matches!(word, SpecWord::Extern)
}

fn is_storage_word(word: SpecWord) -> bool
    ensures { result ≡ is.is_storage_word word }
{
    matches!(word, SpecWord::Extern | SpecWord::Static)
}

impl Often {
    fn once_more(self) -> Often
        ensures { result ≡ is.once_more self }
    {
        match self {
            Often::Never => Often::Once,
            Often::Once | Often::Again => Often::Again,
        }
    }

    fn is(self, other: Often) -> bool
        ensures { result ≡ is.as_often self other }
    {
        self == other
    }
}
