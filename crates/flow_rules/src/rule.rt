// The rules that a program may break.

/// A rule, by what it is when it's broken.
#[derive(Clone, Copy, PartialEq, Eq, PartialOrd, Ord)]
pub enum Rule {
    /// An operator looks at a secret, or it is an index, a condition or is converted.
    OperationOnPriv,
    /// A secret is passed to a host that the slave calls, and not by a marked parameter.
    PrivToHost,
    /// A secret may come into what is marked `unpriv`.
    PrivIntoUnpriv,
    /// Code of both halves names a global.
    SharedGlobal,
    /// A privileged function gives something back through a parameter that doesn't say how.
    UnmarkedOut,
    /// The monitor's code calls a host that only the slave has.
    HostInMonitor,
    /// A secret is passed by a parameter whose values are sent as they are.
    PrivToPlainParam,
    /// main returns a secret.
    PrivStatus,
    /// main is marked `priv`.
    PrivMain,
}

impl Rule {
    ghost use Rattle.std.specs.Prelude.{◌≡◌};
    ghost use Rattle.flow_rules.specs.Numbers.{rule_number, rule_name};

    /// The number of the rule, from 1 on.
    pub fn number(self) -> u8
        ensures { result ≡ rule_number self }
    {
        match self {
            Rule::OperationOnPriv => 1,
            Rule::PrivToHost => 2,
            Rule::PrivIntoUnpriv => 3,
            Rule::SharedGlobal => 4,
            Rule::UnmarkedOut => 5,
            Rule::HostInMonitor => 6,
            Rule::PrivToPlainParam => 7,
            Rule::PrivStatus => 8,
            Rule::PrivMain => 9,
        }
    }

    /// The name of the rule, as reports spell it.
    pub fn name(self) -> &'static str
        ensures { result.now ≡ rule_name self }
    {
        match self {
            Rule::OperationOnPriv => "OperationOnPriv",
            Rule::PrivToHost => "PrivToHost",
            Rule::PrivIntoUnpriv => "PrivIntoUnpriv",
            Rule::SharedGlobal => "SharedGlobal",
            Rule::UnmarkedOut => "UnmarkedOut",
            Rule::HostInMonitor => "HostInMonitor",
            Rule::PrivToPlainParam => "PrivToPlainParam",
            Rule::PrivStatus => "PrivStatus",
            Rule::PrivMain => "PrivMain",
        }
    }
}
