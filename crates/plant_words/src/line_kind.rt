//! The kinds of lines of a plant text, each known by its first word.
ghost use Rattle.std.specs.Prelude.{◌≡◌};
ghost use Rattle.plant_words.specs.LineKinds.{keyword_of, kind_in};

/// What a line adds to an atom.
#[derive(Clone, Copy, Debug, PartialEq, Eq)]
pub enum AtomPart {
    /// `place`
    Place,
    /// `var`
    Variable,
    /// `port`
    Port,
    /// `trans`
    Transition,
}

/// What a line adds to a connector.
#[derive(Clone, Copy, Debug, PartialEq, Eq)]
pub enum WirePart {
    /// `guard`
    Guard,
    /// `move`
    Transfer,
}

/// Which rule a line adds to a plant.
#[derive(Clone, Copy, Debug, PartialEq, Eq)]
pub enum RuleKind {
    /// `prio`
    Priority,
    /// `maximal`
    Maximal,
}

/// What a line adds to a plant.
#[derive(Clone, Copy, Debug, PartialEq, Eq)]
pub enum LineKind {
    /// `atom`: an atom
    Atom,
    /// `connector`: a connector
    Connector,
    /// A part of the latest atom.
    OfAtom(AtomPart),
    /// A part of the latest connector.
    OfConnector(WirePart),
    /// A priority rule.
    Rule(RuleKind),
}

/// Each kind of line, in the order in which they are listed to a person.
pub const LINE_KINDS: [LineKind; 10] = [
    LineKind::Atom,
    LineKind::OfAtom(AtomPart::Place),
    LineKind::OfAtom(AtomPart::Variable),
    LineKind::OfAtom(AtomPart::Port),
    LineKind::OfAtom(AtomPart::Transition),
    LineKind::Connector,
    LineKind::OfConnector(WirePart::Guard),
    LineKind::OfConnector(WirePart::Transfer),
    LineKind::Rule(RuleKind::Priority),
    LineKind::Rule(RuleKind::Maximal),
];

impl LineKind {
    /// The kind of line that begins with the word, or `None` if none does.
    pub fn of(word: &[u8]) -> Option<Self>
        ensures { result ≡ kind_in word.now }
    {
        LINE_KINDS
            .iter()
            .copied()
            .find(|kind| word == kind.keyword())
    }

    /// The word that begins a line of the kind.
    pub fn keyword(self) -> &'static [u8]
        ensures { result.now ≡ keyword_of self }
    {
        match self {
            LineKind::Atom => b"atom",
            LineKind::Connector => b"connector",
            LineKind::OfAtom(AtomPart::Place) => b"place",
            LineKind::OfAtom(AtomPart::Variable) => b"var",
            LineKind::OfAtom(AtomPart::Port) => b"port",
            LineKind::OfAtom(AtomPart::Transition) => b"trans",
            LineKind::OfConnector(WirePart::Guard) => b"guard",
            LineKind::OfConnector(WirePart::Transfer) => b"move",
            LineKind::Rule(RuleKind::Priority) => b"prio",
            LineKind::Rule(RuleKind::Maximal) => b"maximal",
        }
    }
}
