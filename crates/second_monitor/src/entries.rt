// The functions and hosts that slaves call, as the programs' texts declare them.

/// The numbers of types in frames.
pub const CHAR: u8 = 0;

pub const INT: u8 = 5;

pub const LONG: u8 = 7;

/// A program.
#[derive(Clone, Copy)]
pub enum Program {
    Signer,
    Login,
    Ledger,
}

/// What a pointer points to.
#[derive(Clone, Copy)]
pub enum Pointee {
    Char,
    Long,
    Account,
}

/// A parameter: of an integer type, marked or not, or to cells that are const, told or marked.
#[derive(Clone, Copy)]
pub enum Param {
    Plain(u8),
    Marked(u8),
    ToConst(Pointee),
    ToTold(Pointee),
    ToMarked(Pointee),
}

/// What comes back as the result: nothing, an int that is sealed, or one that is told.
#[derive(Clone, Copy)]
pub enum Gives {
    Nothing,
    Sealed,
    Told,
}

/// A function or host of the monitor that a slave calls.
#[derive(Clone, Copy)]
pub struct Entry {
    /// Whether it is a host, whose calls have the depth 0.
    pub is_host: bool,
    /// Its parameters in their order.
    pub params: &'static [Param],
    /// What comes back as its result.
    pub gives: Gives,
}

/// A cell of what a pointer points to: its type, and whether its field is marked.
#[derive(Clone, Copy)]
pub struct Field {
    pub ty: u8,
    pub marked: bool,
}

impl Param {
    /// Whether it is marked itself, so that a handle may stand for what it has or points to.
    pub fn is_marked(self) -> bool {
        matches!(self, Param::Marked(_) | Param::ToMarked(_))
    }

    /// Whether it points to cells that don't come back.
    pub fn is_const(self) -> bool {
        matches!(self, Param::ToConst(_))
    }
}

impl Pointee {
    /// How many cells an element has.
    pub fn size(self) -> u64 {
        match self {
            Pointee::Char | Pointee::Long => 1,
            Pointee::Account => 2,
        }
    }

    /// The cell of this place in a row of elements.
    pub fn field(self, at: u64) -> Field {
        let is_key = at % 2 == 1;
        let (ty, marked) = match self {
            Pointee::Char => (CHAR, false),
            Pointee::Long => (LONG, false),
            Pointee::Account if is_key => (LONG, true),
            Pointee::Account => (INT, false),
        };
        Field { ty, marked }
    }
}

impl Program {
    /// The numbers of the functions and hosts that its slave calls.
    pub fn entries(self) -> &'static [u64] {
        match self {
            Program::Signer => &[0, 1],
            Program::Login => &[0, 4],
            Program::Ledger => &[0, 1, 3, 4, 5, 6],
        }
    }

    /// The function or host of this number, if the slave calls it.
    pub fn entry(self, function: u64) -> Option<Entry> {
        match self {
            Program::Signer => signer_entry(function),
            Program::Login => login_entry(function),
            Program::Ledger => ledger_entry(function),
        }
    }

    /// Its name.
    pub fn name_of(self, function: u64) -> &'static str {
        match (self, function) {
            (Program::Signer, 0) | (Program::Ledger, 0) => "load",
            (Program::Signer, 1) => "sign",
            (Program::Login, 0) => "load_hash",
            (Program::Login, 4) => "verify",
            (Program::Ledger, 1) => "note",
            (Program::Ledger, 3) => "open",
            (Program::Ledger, 4) => "keep",
            (Program::Ledger, 5) => "same",
            (Program::Ledger, 6) => "tell",
            _ => "",
        }
    }
}

fn entry_of(is_host: bool, params: &'static [Param], gives: Gives) -> Option<Entry> {
    Some(Entry {
        is_host,
        params,
        gives,
    })
}

fn signer_entry(function: u64) -> Option<Entry> {
    match function {
        0 => entry_of(true, &[Param::Plain(INT)], Gives::Sealed),
        1 => entry_of(true, &[Param::Marked(INT), Param::Plain(INT)], Gives::Told),
        _ => None,
    }
}

fn login_entry(function: u64) -> Option<Entry> {
    match function {
        0 => entry_of(true, &[Param::Plain(INT)], Gives::Sealed),
        4 => entry_of(
            false,
            &[
                Param::Marked(INT),
                Param::ToConst(Pointee::Char),
                Param::Plain(INT),
            ],
            Gives::Told,
        ),
        _ => None,
    }
}

fn ledger_entry(function: u64) -> Option<Entry> {
    match function {
        0 => entry_of(true, &[Param::Plain(INT)], Gives::Sealed),
        1 => entry_of(
            true,
            &[Param::Plain(INT), Param::Marked(LONG)],
            Gives::Nothing,
        ),
        3 => entry_of(false, &[Param::ToTold(Pointee::Account)], Gives::Nothing),
        4 => entry_of(
            false,
            &[Param::ToMarked(Pointee::Long), Param::Plain(INT)],
            Gives::Nothing,
        ),
        5 => entry_of(
            false,
            &[Param::ToConst(Pointee::Account), Param::Marked(LONG)],
            Gives::Told,
        ),
        6 => entry_of(false, &[Param::Plain(INT)], Gives::Sealed),
        _ => None,
    }
}

/// The least and the greatest number of a type.
pub fn range_of(ty: u8) -> (i128, i128) {
    match ty {
        0 | 1 => (-0x80, 0x7f),
        2 => (0, 0xff),
        3 => (-0x8000, 0x7fff),
        4 => (0, 0xffff),
        5 => (-0x8000_0000, 0x7fff_ffff),
        6 => (0, 0xffff_ffff),
        7 => (-0x8000_0000_0000_0000, 0x7fff_ffff_ffff_ffff),
        _ => (0, 0xffff_ffff_ffff_ffff),
    }
}
