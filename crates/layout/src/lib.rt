// The words of a table: where each thing stands, and how it is read and written.
#![tactic(auto)]

ghost use Rattle.std.specs.Prelude.{◌≡◌, true, ◌+◌, ◌*◌, ◌<◌, ◌≤◌, length};
ghost use Rattle.layout.specs.Places.{MAX_ROWS, HEADER, CELLS, words_for};
ghost use Rattle.layout.specs.View.{view, header_of, cell_of, list_of, head_of, slot_of, put_header, put_cell, put_list, put_head, put_slot};
ghost use Rattle.layout.specs.Header.{header_words};
ghost use Rattle.layout.specs.Roots.{filled_register, filled_relation};
ghost use Rattle.layout.specs.Arrows.{is_row, row_of, arrow_of, is_marked, flip_arrow, carry_arrow};
ghost use Rattle.layout.specs.Refusals.{refusal_number};

// A table's two sizes, and what is fixed of every table.
#[derive(Clone, Copy)]
pub struct Table {
    pub bits: u32,
    pub rows: u32,
}

impl Table {
    // How many registers and relations a table has, and how deep a formula may be.
    pub const REGISTERS: u32 = 32;

    pub const RELATIONS: u32 = 8;

    pub const DEPTH: usize = 64;

    // The greatest sizes.
    pub const MAX_BITS: u32 = 16;

    pub const MAX_ROWS: u32 = 60000;

    // The words before the rows, and the words for each row in all.
    pub const HEADER: usize = 256;

    pub const ROW_WORDS: usize = 12;

    // The two arrows to the one constant, without and with a NOT, and the arrow to row 0.
    pub const NOTHING: u32 = 0;

    pub const EVERYTHING: u32 = 1;

    pub const FIRST_ROW: u32 = 2;

    // Words of the header.
    pub const BITS: usize = 0;

    pub const ROWS: usize = 1;

    pub const USED: usize = 3;

    pub const CURSOR: usize = 4;

    pub const SLOTS: usize = 5;

    pub const STORED: usize = 6;

    pub const LAYOUT: usize = 7;

    // The roots: V's, the registers', the relations'.
    pub const VALID: usize = 15;

    pub const FIRST_REGISTER: usize = 16;

    pub const FIRST_RELATION: usize = 48;

    pub const ROOTS_END: usize = 56;

    // What the layout's word has: arrows carry a NOT, and V is a root. Words of the layouts before have 0 or 2 there.
    pub const CURRENT: u32 = 3;

    // V's root where V is every state.
    pub const ALL_STATES: u32 = 2;

    // Words of a row.
    pub const LOW: usize = 0;

    pub const HIGH: usize = 1;

    pub const LEVEL: usize = 2;

    pub const NEXT: usize = 3;

    pub const RANK: usize = 4;

    pub const MEMO_KEY: usize = 5;

    pub const MEMO_VALUE: usize = 6;

    // Where the list of used rows, the heads and the slots begin, in words for each row.
    pub const CELLS: usize = 8;

    pub const HEADS: usize = 9;

    pub const SLOTTED: usize = 10;

    // The header of an empty table.
    pub fn header(bits: u32, rows: u32) -> [u32; Table::HEADER]
        ensures { result ≡ header_words bits rows }
    {
        let mut words = [0u32; Table::HEADER];
        words[Table::BITS] = bits;
        words[Table::ROWS] = rows;
        words[Table::LAYOUT] = Table::CURRENT;
        words[Table::VALID] = Table::ALL_STATES;
        words
    }
}

// The factors of multiplicative hashes, and how many values a word has.
#[derive(Clone, Copy)]
pub struct Hash;

impl Hash {
    pub const FIRST: u64 = 2654435761;

    pub const SECOND: u64 = 2246822519;

    pub const THIRD: u64 = 3266489917;

    pub const VALUES: u64 = 4294967296;
}

// Why a call is refused.
#[derive(Clone, Copy)]
pub enum Refusal {
    Sizes,
    Unsound,
    Occupied,
    Range,
    Syntax,
    Unbound,
    Vacuous,
    Odd,
    Empty,
    Full,
    Spent,
    NoRun,
    Short,
    Unlisted,
    NoAnswer,
}

// The number of a refusal.
impl From<Refusal> for u32 {
    ghost from_gives = { λ r k. k ≡ refusal_number r };

    fn from(r: Refusal) -> u32 {
        match r {
            Refusal::Sizes => 1,
            Refusal::Unsound => 2,
            Refusal::Occupied => 13,
            Refusal::Range => 3,
            Refusal::Syntax => 4,
            Refusal::Unbound => 5,
            Refusal::Vacuous => 12,
            Refusal::Odd => 6,
            Refusal::Empty => 7,
            Refusal::Full => 8,
            Refusal::Spent => 9,
            Refusal::NoRun => 10,
            Refusal::Short => 11,
            Refusal::Unlisted => 14,
            Refusal::NoAnswer => 15,
        }
    }
}

// Whether an arrow leads to a row.
pub fn is_row(a: u32) -> bool
    ensures { result ≡ is_row a }
{
    if a >= Table::FIRST_ROW {
        return true;
    }
    false
}

// The row that an arrow leads to.
pub fn row_of(a: u32) -> u32
    requires { is_row a ≡ true }
    ensures { result ≡ row_of a }
{
    a / 2 - 1
}

// The arrow to row i, without a NOT.
pub fn arrow_of(i: u32) -> u32
    requires { i < MAX_ROWS }
    ensures { result ≡ arrow_of i }
{
    2 * (i + 1)
}

// Whether an arrow carries a NOT.
pub fn is_marked(a: u32) -> bool
    ensures { result ≡ is_marked a }
{
    a % 2 == 1
}

// NOT of an arrow: the other one to the same row or constant. With no branch, and the compiler makes one XOR of it.
pub fn flip(a: u32) -> u32
    ensures { result ≡ flip_arrow a }
{
    a - a % 2 + (1 - a % 2)
}

// An arrow, or NOT of it where another one carries a NOT.
pub fn carry(by: u32, a: u32) -> u32
    ensures { result ≡ carry_arrow (is_marked by) a }
{
    if is_marked(by) {
        return flip(a);
    }
    a
}

// Word h of the header.
pub fn header_word(words: &[u32], h: usize) -> u32
    requires { (h < HEADER) × (HEADER ≤ length words.now) }
    ensures { result ≡ header_of words.now h }
{
    words[h]
}

// Word h of the header becomes v.
pub fn put_header(words: &mut [u32], rows: u32, h: usize, v: u32)
    requires { (h < HEADER) × (words_for rows ≤ length words.old) }
    ensures { view rows words.new ≡ put_header (view rows words.old) h v }
{
    words[h] = v;
}

// Word k of row i.
pub fn get(words: &[u32], rows: u32, i: u32, k: usize) -> u32
    requires { (i < rows) × (k < CELLS) × (words_for rows ≤ length words.now) }
    ensures { result ≡ cell_of rows words.now i k }
{
    let at = Table::HEADER + Table::CELLS * (i as usize) + k;
    words[at]
}

// Word k of row i becomes v.
pub fn put(words: &mut [u32], rows: u32, i: u32, k: usize, v: u32)
    requires { (i < rows) × (k < CELLS) × (words_for rows ≤ length words.old) }
    ensures { view rows words.new ≡ put_cell (view rows words.old) i k v }
{
    let at = Table::HEADER + Table::CELLS * (i as usize) + k;
    words[at] = v;
}

// The row at place k of the list of used rows.
pub fn listed(words: &[u32], rows: u32, k: u32) -> u32
    requires { (k < rows) × (words_for rows ≤ length words.now) }
    ensures { result ≡ list_of rows words.now k }
{
    let at = Table::HEADER + Table::CELLS * (rows as usize) + (k as usize);
    words[at]
}

// Place k of the list of used rows becomes v.
pub fn put_listed(words: &mut [u32], rows: u32, k: u32, v: u32)
    requires { (k < rows) × (words_for rows ≤ length words.old) }
    ensures { view rows words.new ≡ put_list (view rows words.old) k v }
{
    let at = Table::HEADER + Table::CELLS * (rows as usize) + (k as usize);
    words[at] = v;
}

// The head of bucket b.
pub fn head(words: &[u32], rows: u32, b: u32) -> u32
    requires { (b < rows) × (words_for rows ≤ length words.now) }
    ensures { result ≡ head_of rows words.now b }
{
    let at = Table::HEADER + Table::HEADS * (rows as usize) + (b as usize);
    words[at]
}

// The head of bucket b becomes v.
pub fn put_head(words: &mut [u32], rows: u32, b: u32, v: u32)
    requires { (b < rows) × (words_for rows ≤ length words.old) }
    ensures { view rows words.new ≡ put_head (view rows words.old) b v }
{
    let at = Table::HEADER + Table::HEADS * (rows as usize) + (b as usize);
    words[at] = v;
}

// Word p of the slots for remembered binary results.
pub fn slot(words: &[u32], rows: u32, p: u32) -> u32
    requires { (p < 2 * rows) × (words_for rows ≤ length words.now) }
    ensures { result ≡ slot_of rows words.now p }
{
    let at = Table::HEADER + Table::SLOTTED * (rows as usize) + (p as usize);
    words[at]
}

// Word p of the slots for remembered binary results becomes v.
pub fn put_slot(words: &mut [u32], rows: u32, p: u32, v: u32)
    requires { (p < 2 * rows) × (words_for rows ≤ length words.old) }
    ensures { view rows words.new ≡ put_slot (view rows words.old) p v }
{
    let at = Table::HEADER + Table::SLOTTED * (rows as usize) + (p as usize);
    words[at] = v;
}

// Word h of the header of any words: 0 past the end of the header or of the words.
fn root_word(words: &[u32], h: usize) -> u32
    ensures { result ≡ header_of words.now h }
{
    if h >= Table::HEADER {
        return 0;
    }
    if h >= words.len() {
        return 0;
    }
    words[h]
}

// Whether register r of any words is filled: none but the first 32 is.
pub fn register_filled(words: &[u32], r: u32) -> bool
    ensures { result ≡ filled_register words.now r }
{
    if r >= Table::REGISTERS {
        return false;
    }
    let at = Table::FIRST_REGISTER + (r as usize);
    root_word(words, at) != 0
}

// Whether relation t of any words is filled: none but the first 8 is.
// A twin of three lines: one function for both would take the bound and the place, and its contract both definitions.
pub fn relation_filled(words: &[u32], t: u32) -> bool
    ensures { result ≡ filled_relation words.now t }
{
    if t >= Table::RELATIONS {
        return false;
    }
    let at = Table::FIRST_RELATION + (t as usize);
    root_word(words, at) != 0
}
