ghost use Rattle.std.specs.Prelude.{◌≡◌, ◌≤◌, ℕ, ◌+◌, ◌*◌, ◌/◌, ◌%◌, ◌^◌};
ghost use Rattle.cv_syntax_trees.specs.Head.{code, decoded, weight};

/// A head as a tag and two numbers, 0 where it has none.
#[derive(Clone, Copy, Debug, PartialEq, Eq)]
pub struct Code {
    pub tag: u8,
    pub a: u32,
    pub b: u32,
}

/// What a node of a tree is, with the numbers of the names that it holds.
#[derive(Clone, Copy)]
pub enum Head {
    // Processes.
    /// The process `0`.
    Stop,
    /// `yield`.
    Yield,
    /// A parallel composition.
    Par,
    /// A replication: its index and its parameter.
    Repl(u32, u32),
    /// An input on a channel.
    In(u32),
    /// An output on a channel.
    Out(u32),
    /// An event.
    Event(u32),
    /// A restriction: the variable and its type.
    New(u32, u32),
    /// An assignment: the variable and its type.
    Let(u32, u32),
    /// A test.
    If,
    /// A search in arrays, with its label.
    Find(u64),
    /// A branch of a `find`.
    Branch,
    // Terms.
    /// An index, a constant or a variable without indices.
    Leaf(u32),
    /// A read of an array at index terms.
    Read(u32),
    /// A function at its arguments.
    Apply(u32),
    /// `=`.
    Eq,
    /// `&&`.
    And,
    /// `||`.
    Or,
    /// `not`.
    Not,
    /// `true`.
    Yes,
    /// `false`.
    No,
    // Lists, binders and what holds them together. These weigh nothing.
    /// A list: its first item, and the rest.
    Cons,
    /// A bound variable with its type, or an index with its parameter.
    Binder(u32, u32),
    /// A name.
    Name(u32),
    /// A number.
    Number(u64),
    // Declarations. These weigh nothing.
    /// An equation over its variables.
    Forall,
    /// A correspondence.
    Query,
    /// An event of a query.
    Occurs(u32),
    /// An event of a query that is marked `inj`.
    OccursOnce(u32),
    /// The query `secret`.
    Secret(u32),
    /// The query `secret1`.
    SecretOnce(u32),
    /// An equivalence, with its probability.
    Equivalence(u32),
    /// A replication of an equivalence.
    Bound(u32, u32),
    /// A function that is called once.
    Single(u32),
    /// A function of an equivalence.
    Oracle(u32),
    // Steps. A step, a reason and a part of a certificate is a node over its items.
    RenameStep,
    RewriteStep,
    PruneStep,
    PickStep,
    MergeStep,
    SplitStep,
    LetStep,
    NewStep,
    UnletStep,
    UnnewStep,
    MoveStep,
    /// The step `SArename`.
    ArrayRenameStep,
    CodefStep,
    BirthdayStep,
    GuessStep,
    FreshStep,
    CryptoStep,
    SuccessStep,
    SimplifyStep,
    /// The part `then` of a `prune`. A numbered branch is a number.
    ThenPart,
    /// The part `else` of a `prune`.
    ElsePart,
    /// The part `add` of a `codef`.
    AddPart,
    /// The part `drop` of a `codef`.
    DropPart,
    // Derivations.
    /// A line: a term and its reason.
    Line,
    /// A line that says that a cell is assigned.
    Defined,
    /// A line for two cases: their term, a block for each, and the line's term.
    Cases,
    /// An index of the second copy.
    Primed(u32),
    ByFact,
    ByHere,
    ByOf,
    BySite,
    ByEquation,
    ByRefl,
    BySym,
    ByTrans,
    ByCong,
    ByMp,
    ByAnd,
    ByLeft,
    ByRight,
    ByContra,
    ByExfalso,
    ByData,
    ByGiven,
    ByAgain,
    ByBool,
    ByOtherFact,
    ByOtherHere,
    BySame,
    ByDistinct,
    ByLate,
    // Certificates.
    EventsCertificate,
    SecretCertificate,
    /// What is said of a left event's node: its place, and `NeverEntry` or `WithEntry`.
    AtEntry,
    NeverEntry,
    WithEntry,
    AboveRoute,
    CellRoute,
    HoldsRoute,
    /// The variables whose values are taken to differ.
    DistinctPart,
    /// A pair of places of a correspondence.
    Pair,
    /// A pair of places of a secrecy query.
    SecretPair,
    // Contexts of an equivalence.
    /// The choice of a key.
    Key(u32),
    /// A call of a site, and the variable that takes its answer.
    Call(u32, u32),
    // The right side of a correspondence with alternatives.
    /// Two right sides of which one must be met. It weighs nothing.
    SomeOf,
    /// The part `alt` of a certificate: the number of the alternative. It stands before the routes of its atoms.
    AlternativePart,
}

impl Head {
    /// The code of this head.
    pub fn code(self) -> Code
        ensures { result ≡ code self }
    {
        let (tag, a, b) = match self {
            Head::Stop => (0, 0, 0),
            Head::Yield => (1, 0, 0),
            Head::Par => (2, 0, 0),
            Head::Repl(x, y) => (3, x, y),
            Head::In(x) => (4, x, 0),
            Head::Out(x) => (5, x, 0),
            Head::Event(x) => (6, x, 0),
            Head::New(x, y) => (7, x, y),
            Head::Let(x, y) => (8, x, y),
            Head::If => (9, 0, 0),
            Head::Find(v) => (10, low_half(v), high_half(v)),
            Head::Branch => (11, 0, 0),
            Head::Leaf(x) => (12, x, 0),
            Head::Read(x) => (13, x, 0),
            Head::Apply(x) => (14, x, 0),
            Head::Eq => (15, 0, 0),
            Head::And => (16, 0, 0),
            Head::Or => (17, 0, 0),
            Head::Not => (18, 0, 0),
            Head::Yes => (19, 0, 0),
            Head::No => (20, 0, 0),
            Head::Cons => (21, 0, 0),
            Head::Binder(x, y) => (22, x, y),
            Head::Name(x) => (23, x, 0),
            Head::Number(v) => (24, low_half(v), high_half(v)),
            Head::Forall => (25, 0, 0),
            Head::Query => (26, 0, 0),
            Head::Occurs(x) => (27, x, 0),
            Head::OccursOnce(x) => (28, x, 0),
            Head::Secret(x) => (29, x, 0),
            Head::SecretOnce(x) => (30, x, 0),
            Head::Equivalence(x) => (31, x, 0),
            Head::Bound(x, y) => (32, x, y),
            Head::Single(x) => (33, x, 0),
            Head::Oracle(x) => (34, x, 0),
            Head::RenameStep => (35, 0, 0),
            Head::RewriteStep => (36, 0, 0),
            Head::PruneStep => (37, 0, 0),
            Head::PickStep => (38, 0, 0),
            Head::MergeStep => (39, 0, 0),
            Head::SplitStep => (40, 0, 0),
            Head::LetStep => (41, 0, 0),
            Head::NewStep => (42, 0, 0),
            Head::UnletStep => (43, 0, 0),
            Head::UnnewStep => (44, 0, 0),
            Head::MoveStep => (45, 0, 0),
            Head::ArrayRenameStep => (46, 0, 0),
            Head::CodefStep => (47, 0, 0),
            Head::BirthdayStep => (48, 0, 0),
            Head::GuessStep => (49, 0, 0),
            Head::FreshStep => (50, 0, 0),
            Head::CryptoStep => (51, 0, 0),
            Head::SuccessStep => (52, 0, 0),
            Head::SimplifyStep => (53, 0, 0),
            Head::ThenPart => (54, 0, 0),
            Head::ElsePart => (55, 0, 0),
            Head::AddPart => (56, 0, 0),
            Head::DropPart => (57, 0, 0),
            Head::Line => (58, 0, 0),
            Head::Defined => (59, 0, 0),
            Head::Cases => (60, 0, 0),
            Head::Primed(x) => (61, x, 0),
            Head::ByFact => (62, 0, 0),
            Head::ByHere => (63, 0, 0),
            Head::ByOf => (64, 0, 0),
            Head::BySite => (65, 0, 0),
            Head::ByEquation => (66, 0, 0),
            Head::ByRefl => (67, 0, 0),
            Head::BySym => (68, 0, 0),
            Head::ByTrans => (69, 0, 0),
            Head::ByCong => (70, 0, 0),
            Head::ByMp => (71, 0, 0),
            Head::ByAnd => (72, 0, 0),
            Head::ByLeft => (73, 0, 0),
            Head::ByRight => (74, 0, 0),
            Head::ByContra => (75, 0, 0),
            Head::ByExfalso => (76, 0, 0),
            Head::ByData => (77, 0, 0),
            Head::ByGiven => (78, 0, 0),
            Head::ByAgain => (79, 0, 0),
            Head::ByBool => (80, 0, 0),
            Head::ByOtherFact => (81, 0, 0),
            Head::ByOtherHere => (82, 0, 0),
            Head::BySame => (83, 0, 0),
            Head::ByDistinct => (84, 0, 0),
            Head::ByLate => (97, 0, 0),
            Head::EventsCertificate => (85, 0, 0),
            Head::SecretCertificate => (86, 0, 0),
            Head::AtEntry => (87, 0, 0),
            Head::NeverEntry => (88, 0, 0),
            Head::WithEntry => (89, 0, 0),
            Head::AboveRoute => (90, 0, 0),
            Head::CellRoute => (91, 0, 0),
            Head::HoldsRoute => (92, 0, 0),
            Head::DistinctPart => (93, 0, 0),
            Head::Pair => (94, 0, 0),
            Head::SecretPair => (95, 0, 0),
            Head::Key(x) => (96, x, 0),
            Head::SomeOf => (98, 0, 0),
            Head::AlternativePart => (99, 0, 0),
            Head::Call(x, y) => (100, x, y),
        };
        Code { tag, a, b }
    }

    /// 1 for a syntax node, 0 for a list, a binder and what only holds declarations together.
    pub fn weight(self) -> u32
        ensures weight { result ≡ weight self }
        ensures one { result ≤ 1 }
    {
        match self {
            Head::Cons
            | Head::Binder(_, _)
            | Head::Name(_)
            | Head::Number(_)
            | Head::Forall
            | Head::Query
            | Head::Occurs(_)
            | Head::OccursOnce(_)
            | Head::Secret(_)
            | Head::SecretOnce(_)
            | Head::Equivalence(_)
            | Head::Bound(_, _)
            | Head::Single(_)
            | Head::Oracle(_)
            | Head::SomeOf => 0,
            _ => 1,
        }
    }

    /// The head with this code. A code of no head counts as a call.
    pub fn of(code: Code) -> Head
        ensures { result ≡ decoded code }
    {
        let Code { tag, a, b } = code;
        match tag {
            0 => Head::Stop,
            1 => Head::Yield,
            2 => Head::Par,
            3 => Head::Repl(a, b),
            4 => Head::In(a),
            5 => Head::Out(a),
            6 => Head::Event(a),
            7 => Head::New(a, b),
            8 => Head::Let(a, b),
            9 => Head::If,
            10 => Head::Find(joined(a, b)),
            11 => Head::Branch,
            12 => Head::Leaf(a),
            13 => Head::Read(a),
            14 => Head::Apply(a),
            15 => Head::Eq,
            16 => Head::And,
            17 => Head::Or,
            18 => Head::Not,
            19 => Head::Yes,
            20 => Head::No,
            21 => Head::Cons,
            22 => Head::Binder(a, b),
            23 => Head::Name(a),
            24 => Head::Number(joined(a, b)),
            25 => Head::Forall,
            26 => Head::Query,
            27 => Head::Occurs(a),
            28 => Head::OccursOnce(a),
            29 => Head::Secret(a),
            30 => Head::SecretOnce(a),
            31 => Head::Equivalence(a),
            32 => Head::Bound(a, b),
            33 => Head::Single(a),
            34 => Head::Oracle(a),
            35 => Head::RenameStep,
            36 => Head::RewriteStep,
            37 => Head::PruneStep,
            38 => Head::PickStep,
            39 => Head::MergeStep,
            40 => Head::SplitStep,
            41 => Head::LetStep,
            42 => Head::NewStep,
            43 => Head::UnletStep,
            44 => Head::UnnewStep,
            45 => Head::MoveStep,
            46 => Head::ArrayRenameStep,
            47 => Head::CodefStep,
            48 => Head::BirthdayStep,
            49 => Head::GuessStep,
            50 => Head::FreshStep,
            51 => Head::CryptoStep,
            52 => Head::SuccessStep,
            53 => Head::SimplifyStep,
            54 => Head::ThenPart,
            55 => Head::ElsePart,
            56 => Head::AddPart,
            57 => Head::DropPart,
            58 => Head::Line,
            59 => Head::Defined,
            60 => Head::Cases,
            61 => Head::Primed(a),
            62 => Head::ByFact,
            63 => Head::ByHere,
            64 => Head::ByOf,
            65 => Head::BySite,
            66 => Head::ByEquation,
            67 => Head::ByRefl,
            68 => Head::BySym,
            69 => Head::ByTrans,
            70 => Head::ByCong,
            71 => Head::ByMp,
            72 => Head::ByAnd,
            73 => Head::ByLeft,
            74 => Head::ByRight,
            75 => Head::ByContra,
            76 => Head::ByExfalso,
            77 => Head::ByData,
            78 => Head::ByGiven,
            79 => Head::ByAgain,
            80 => Head::ByBool,
            81 => Head::ByOtherFact,
            82 => Head::ByOtherHere,
            83 => Head::BySame,
            84 => Head::ByDistinct,
            85 => Head::EventsCertificate,
            86 => Head::SecretCertificate,
            87 => Head::AtEntry,
            88 => Head::NeverEntry,
            89 => Head::WithEntry,
            90 => Head::AboveRoute,
            91 => Head::CellRoute,
            92 => Head::HoldsRoute,
            93 => Head::DistinctPart,
            94 => Head::Pair,
            95 => Head::SecretPair,
            96 => Head::Key(a),
            97 => Head::ByLate,
            98 => Head::SomeOf,
            99 => Head::AlternativePart,
            100..=255 => Head::Call(a, b),
        }
    }
}

/// The low half of a number.
fn low_half(v: u64) -> u32
    ensures { result ≡ v % 2 ^ 32 }
{
    (v % 4_294_967_296) as u32
}

/// The high half of a number.
fn high_half(v: u64) -> u32
    ensures { result ≡ v / 2 ^ 32 }
{
    (v / 4_294_967_296) as u32
}

/// The number of two halves.
fn joined(low: u32, high: u32) -> u64
    ensures { result ≡ low + 2 ^ 32 * high }
{
    u64::from(low) + 4_294_967_296 * u64::from(high)
}
