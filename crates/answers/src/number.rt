// The numbers of the rules (M 11), each by its name. The definitions have the same names in `rules/specs/Numbers`.
ghost use Rattle.std.specs.Prelude.{◌≡◌};
ghost use Rattle.answers.specs.Numbers.{code_of};

#[derive(Clone, Copy, PartialEq, Eq, Debug)]
pub enum Number {
    BadLength = 1,
    BadDirectory = 2,
    BadCounts = 3,
    BadClass = 4,
    BadFunction = 5,
    BadSignature = 6,
    BadMethod = 7,
    TwinMethod = 8,
    BadCode = 9,
    NoMethod = 10,
    Ambiguous = 11,
    NarrowDeclared = 12,
    WideResult = 13,
    BadStack = 14,
    AbstractNew = 15,
    NoLicence = 16,
    LooseResult = 17,
    Absent = 18,
    ShortScratch = 19,
    ShortBuffer = 20,
    NotBinary = 21,
    NoLine = 22,
    ShortLine = 23,
    NoConcrete = 24,
    NoOverridden = 25,
    AmbiguousResend = 26,
    NarrowTarget = 27,
}

impl Number {
    pub fn code(self) -> u8
        ensures { result ≡ code_of self }
    {
        self as u8
    }
}
