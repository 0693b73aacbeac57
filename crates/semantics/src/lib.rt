// The types in which document 01 is stated, for the definitions in specs/ and for the code. No code.
#![tactic(auto)]

// Why something is refused; specs/Answers.antt has the number of each, 01's or 02's.
#[derive(Clone, Copy)]
pub enum Refusal {
    TableSizes,
    TableContents,
    StateSizes,
    StateContents,
    MoveForm,
    TargetTooShort,
    WrongPick,
    WrongOwner,
    NoTransaction,
    EndNotAllowed,
    NoMoreIds,
    TooManyEntries,
    LogSizes,
    BeginEmits,
    TransactionOpen,
    SerialTooManyEntries,
    TransactionAborting,
    BudgetTooLarge,
}

// What a single test says.
#[derive(Clone, Copy)]
pub enum Verdict {
    Allowed,
    Denied(Refusal),
}

// What a public call says: a check is passed; words were written; moves were made, the words of the state
// that they left and the member marks that they removed (02, M-120); the call is refused; or the log's
// move at a place is.
#[derive(Clone, Copy)]
pub enum Outcome {
    Passed,
    Written(u32),
    Moved(u32, u32),
    Refused(Refusal),
    MoveRefused(u32, Refusal),
}

// The same in numbers, for C. place and own only with 16, else 0; members only of a move or a run.
#[repr(C)]
#[derive(Clone, Copy)]
pub struct Answer {
    pub number: u32,
    pub words: u32,
    pub place: u32,
    pub own: u32,
    pub members: u32,
}

// The tally of a run (02, M-125), as four words in this order: moves made, and members (01's lots) begun,
// committed and aborted (opened, released and called off).
#[derive(Clone, Copy)]
pub struct Tally {
    pub moves: u32,
    pub begun: u32,
    pub committed: u32,
    pub aborted: u32,
}

// What the list of open moves says: words of a page written, or why not, and the length of the whole
// list.
#[derive(Clone, Copy)]
pub struct Listed {
    pub outcome: Outcome,
    pub length: u64,
}

// The same in numbers, for C.
#[repr(C)]
#[derive(Clone, Copy)]
pub struct Page {
    pub number: u32,
    pub words: u32,
    pub length: u64,
}

// What a move that is accepted would leave, by the preview (02, M-115): the entries in all, the next id
// (01's next ticket), and the id of the transaction that the move concerns, 0 where there is none; and
// how many member marks it would remove (02, M-120).
#[derive(Clone, Copy)]
pub struct Foreseen {
    pub entries: u32,
    pub next: u32,
    pub id: u32,
    pub members: u32,
}

// What the preview of a move says.
#[derive(Clone, Copy)]
pub enum Previewed {
    Accepted(Foreseen),
    Rejected(Refusal),
}

// The same in numbers, for C.
#[repr(C)]
#[derive(Clone, Copy)]
pub struct Preview {
    pub number: u32,
    pub entries: u32,
    pub next: u32,
    pub id: u32,
    pub members: u32,
}

// What an unattended run says (02, M-130): words of its log written, or why not, how many moves it made,
// and whether none is open where it ended. Else its budget is spent.
#[derive(Clone, Copy)]
pub struct LeftAlone {
    pub outcome: Outcome,
    pub moves: u32,
    pub still: bool,
}

// The same in numbers, for C: still is 1, spent 0.
#[repr(C)]
#[derive(Clone, Copy)]
pub struct Unattended {
    pub number: u32,
    pub words: u32,
    pub moves: u32,
    pub still: u32,
}

// 01's G, L, M, R and A: how many global, local and merge ports (plant, batch, joining ports), rules
// and atoms.
#[derive(Clone, Copy)]
pub struct Sizes {
    pub globals: u32,
    pub locals: u32,
    pub merges: u32,
    pub rules: u32,
    pub atoms: u32,
}

// What an atom's conditions have to know of its rule: its numbers of consumes (takes) and begins
// (opens), and its class (0 global, 1 local, 2 merge).
#[derive(Clone, Copy)]
pub struct Shape {
    pub consumes: usize,
    pub begins: usize,
    pub class: u32,
}

// An atom's value: a constant, or the value received by a consume atom (take) of its rule, from 0.
// An atom takes 8 bytes, so that a rule is decoded at little cost.
#[derive(Clone, Copy)]
pub enum AtomValue {
    Constant(u16),
    Received(u16),
}

// Roles: 0 consume (take), 1 emit (give), 2 begin (open), 3 body (inside), 4 compensate (call-off),
// 5 abort (stop).
#[derive(Clone, Copy)]
pub struct Atom {
    pub role: u16,
    pub port: u16,
    pub value: AtomValue,
}
