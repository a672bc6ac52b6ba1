// What a call answers. Every refusal of document 01 is a case of one enum, so that a later number costs one place: only `number` and
// `values` look at the cases, and every other function passes a refusal on whole.
ghost use Rattle.std.specs.Prelude.{◌≡◌, length, get_or};
ghost use Rattle.columns.specs.Refusals.{side_number, number, values, told, sooner};
ghost use Rattle.columns.specs.Lengths.{misfits, bad_pair_in, no_room_of, wrong_length};

// Which of the two lists of blocks: of the columns that stay, and of those that the reduced operator does away with.
#[derive(Clone, Copy)]
pub enum Side {
    Kept,
    Eliminated,
}

impl Side {
    // The number by which a refusal names it.
    pub fn number(self) -> usize
        ensures { result ≡ side_number self }
    {
        match self {
            Side::Kept => 0,
            Side::Eliminated => 1,
        }
    }
}

// Why a call was refused: document 01's numbers 1 to 14, in its order.
#[derive(Clone, Copy)]
pub enum Refusal {
    TooBig,
    BadShape,
    // the first column with a bad entry, and that entry's place among all entries
    BadRow { column: usize, place: usize },
    // the side's number, 0 kept and 1 eliminated. A number, as for every value: `values` answers for any, also where a caller made the refusal.
    EmptySide { side: usize },
    BadChunk,
    // the buffer's place in the room list
    NoRoom { buffer: usize, need: usize },
    ColumnOutOfRange { column: usize },
    ColumnTwice { column: usize },
    ColumnUnclaimed { column: usize },
    // the eliminated block that finds its row taken, and the one that holds it
    Connected { now: usize, earlier: usize },
    // the place among the lengths that the call takes
    WrongLength { place: usize, need: usize },
    BadDamping,
    // the side's number, 0 kept and 1 eliminated
    BadPlan { side: usize },
    BadSchedule { place: usize },
}

// A refusal's values: how many it has, and the two; 0 where there is none. Two numbers and not a list: the exports write them through two numbers that
// C lends.
#[derive(Clone, Copy)]
pub struct Values {
    pub count: usize,
    pub first: usize,
    pub second: usize,
}

// No values, one, and two.
const NO_VALUES: Values = Values {
    count: 0,
    first: 0,
    second: 0,
};

fn one_value(first: usize) -> Values
    ensures { result ≡ record { count = 1; first = first; second = 0 } }
{
    Values {
        count: 1,
        first,
        second: 0,
    }
}

fn two_values(first: usize, second: usize) -> Values
    ensures { result ≡ record { count = 2; first = first; second = second } }
{
    Values {
        count: 2,
        first,
        second,
    }
}

impl Refusal {
    // The number that document 01 gives this refusal.
    pub fn number(self) -> u32
        ensures { result ≡ number self }
    {
        match self {
            Refusal::TooBig => 1,
            Refusal::BadShape => 2,
            Refusal::BadRow { .. } => 3,
            Refusal::EmptySide { .. } => 4,
            Refusal::BadChunk => 5,
            Refusal::NoRoom { .. } => 6,
            Refusal::ColumnOutOfRange { .. } => 7,
            Refusal::ColumnTwice { .. } => 8,
            Refusal::ColumnUnclaimed { .. } => 9,
            Refusal::Connected { .. } => 10,
            Refusal::WrongLength { .. } => 11,
            Refusal::BadDamping => 12,
            Refusal::BadPlan { .. } => 13,
            Refusal::BadSchedule { .. } => 14,
        }
    }

    // What it returns beside its number.
    pub fn values(self) -> Values
        ensures { result ≡ record { count = length (values self); first = get_or (values self) 0 0; second = get_or (values self) 1 0 } }
    {
        match self {
            Refusal::TooBig | Refusal::BadShape | Refusal::BadChunk | Refusal::BadDamping =>
                NO_VALUES,
            Refusal::EmptySide { side } | Refusal::BadPlan { side } => one_value(side),
            Refusal::ColumnOutOfRange { column }
            | Refusal::ColumnTwice { column }
            | Refusal::ColumnUnclaimed { column } => one_value(column),
            Refusal::BadSchedule { place } => one_value(place),
            Refusal::BadRow { column, place } => two_values(column, place),
            Refusal::NoRoom { buffer, need } => two_values(buffer, need),
            Refusal::Connected { now, earlier } => two_values(now, earlier),
            Refusal::WrongLength { place, need } => two_values(place, need),
        }
    }
}

// Two checks side by side: the refusal with the lower number answers, since document 01's order is that of the numbers.
pub fn sooner(a: Result<(), Refusal>, b: Result<(), Refusal>) -> Result<(), Refusal>
    ensures { told result ≡ sooner (told a) (told b) }
{
    let Err(r) = a else {
        return b;
    };
    let Err(s) = b else {
        return a;
    };
    if s.number() < r.number() { b } else { a }
}

// Whether a length falls short of its need, or where it has to be exact passes it.
#[tactic(auto, unfolding(crate::specs::Lengths::misfits))]
fn misfits(exact: bool, length: usize, need: usize) -> bool
    ensures { result ≡ misfits exact length need }
{
    length < need || exact && need < length
}

// The first bad pair: its place among the pairs, and its need.
fn bad_pair(exact: bool, pairs: &[usize]) -> Option<(usize, usize)>
    ensures { result ≡ bad_pair_in exact pairs.now }
{
    for (k, pair) in pairs.chunks_exact(2).enumerate() {
        if misfits(exact, pair[0], pair[1]) {
            return Some((k, pair[1]));
        }
    }
    None
}

// The first of a call's buffers that is shorter than its need. What is lent comes as pairs, length then need, in document 01's order, so
// that a call's list is written once and no place number is.
pub fn no_room(pairs: &[usize]) -> Result<(), Refusal>
    ensures { told result ≡ no_room_of pairs.now }
{
    match bad_pair(false, pairs) {
        Some((buffer, need)) => Err(Refusal::NoRoom { buffer, need }),
        None => Ok(()),
    }
}

// The first of a call's lengths that is not its need, likewise.
pub fn wrong_length(pairs: &[usize]) -> Result<(), Refusal>
    ensures { told result ≡ wrong_length pairs.now }
{
    match bad_pair(true, pairs) {
        Some((place, need)) => Err(Refusal::WrongLength { place, need }),
        None => Ok(()),
    }
}
