ghost use Rattle.std.specs.Prelude.{◌≡◌};
ghost use Rattle.grammar.specs.Refusals.{number};
ghost use Rattle.grammar.specs.declared.refusals.Refusal.TheVariants.{Draft, Reading, File, Line};

// Why a draft refuses a start, a production or a rule.
#[derive(Clone, Copy, PartialEq, Eq, Debug)]
pub enum DraftRefusal {
    Symbol = 1,
    LongRight = 2,
    Full = 3,
    Repeated = 4,
    LeadsToItself = 5,
    NoProduction = 6,
    RulesFull = 7,
    AboveItself = 8,
}

// Why a reading refuses a call.
#[derive(Clone, Copy, PartialEq, Eq, Debug)]
pub enum ReadingRefusal {
    LineFull = 9,
    NoKind = 10,
    NothingBegins = 11,
    NoWord = 12,
    NoSentence = 13,
    ShortChart = 14,
    ShortListing = 15,
    ShortTable = 16,
}

// Why a grammar file is refused, or can't be written.
#[derive(Clone, Copy, PartialEq, Eq, Debug)]
pub enum FileRefusal {
    Mark = 17,
    Form = 18,
    Declared = 19,
    Undeclared = 20,
    ShortText = 22,
}

// Why a line of text is refused.
#[derive(Clone, Copy, PartialEq, Eq, Debug)]
pub enum LineRefusal {
    UnknownWord = 21,
}

// A refusal with the layer that gives it.
#[derive(Clone, Copy, PartialEq, Eq, Debug)]
pub enum Refusal {
    Draft(DraftRefusal),
    Reading(ReadingRefusal),
    File(FileRefusal),
    Line(LineRefusal),
}

// The number is a method of each layer's refusals, and the four are public promises, which `Refusal::number` asks: a trait for it would
// have the same four bodies, and callers would import it.
impl DraftRefusal {
    // The number that callers know this refusal by.
    pub fn number(self) -> u8
        ensures { result ≡ number (Draft self) }
    {
        self as u8
    }
}

impl ReadingRefusal {
    // The number that callers know this refusal by.
    pub fn number(self) -> u8
        ensures { result ≡ number (Reading self) }
    {
        self as u8
    }
}

impl FileRefusal {
    // The number that callers know this refusal by.
    pub fn number(self) -> u8
        ensures { result ≡ number (File self) }
    {
        self as u8
    }
}

impl LineRefusal {
    // The number that callers know this refusal by.
    pub fn number(self) -> u8
        ensures { result ≡ number (Line self) }
    {
        self as u8
    }
}

impl Refusal {
    // The number that callers know this refusal by, whichever layer gives it.
    pub fn number(self) -> u8
        ensures { result ≡ number self }
    {
        match self {
            Refusal::Draft(refusal) => refusal.number(),
            Refusal::Reading(refusal) => refusal.number(),
            Refusal::File(refusal) => refusal.number(),
            Refusal::Line(refusal) => refusal.number(),
        }
    }
}

impl From<DraftRefusal> for Refusal {
    ghost from_gives = { λ cause refusal. refusal ≡ Draft cause };

    fn from(cause: DraftRefusal) -> Refusal {
        Refusal::Draft(cause)
    }
}

impl From<ReadingRefusal> for Refusal {
    ghost from_gives = { λ cause refusal. refusal ≡ Reading cause };

    fn from(cause: ReadingRefusal) -> Refusal {
        Refusal::Reading(cause)
    }
}

impl From<FileRefusal> for Refusal {
    ghost from_gives = { λ cause refusal. refusal ≡ File cause };

    fn from(cause: FileRefusal) -> Refusal {
        Refusal::File(cause)
    }
}

impl From<LineRefusal> for Refusal {
    ghost from_gives = { λ cause refusal. refusal ≡ Line cause };

    fn from(cause: LineRefusal) -> Refusal {
        Refusal::Line(cause)
    }
}
