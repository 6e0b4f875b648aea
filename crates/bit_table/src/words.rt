//! Bits of rows that follow one another in a list of words, each row of the same number of words.
ghost use Rattle.std.specs.Prelude.{◌≡◌, ◌≢◌, ◌<◌, ◌≤◌, ◌+◌, ◌*◌, ◌/◌, ◌&&◌, ◌||◌, ℕ, eqb, length};
ghost use Rattle.bit_table.specs.Tables.{bit};

// Whether a bit is set.
#[tactic(auto, using(std::proofs::lemmas::Nat::Bits::shr_and_one))]
pub(crate) fn has_bit(words: &Vec<u64>, width: usize, row: usize, column: usize) -> bool
    requires { row * width + column / 64 < length words.now.items }
    ensures { result ≡ bit words.now.items width row column }
{
    let word = words[row * width + column / 64];
    (word >> (column % 64)) & 1 == 1
}

// Sets a bit.
pub(crate) fn set_bit(words: &mut Vec<u64>, width: usize, row: usize, column: usize)
    requires inside { row * width + column / 64 < length words.old.items }
    requires column { column / 64 < width }
    ensures size { length words.new.items ≡ length words.old.items }
    ensures bits { (r c : ℕ) → c / 64 < width → bit words.new.items width r c
        ≡ (bit words.old.items width r c || (eqb r row && eqb c column)) }
{
    let place = row * width + column / 64;
    words[place] = words[place] | (1 << (column % 64));
}

// Sets the bits of one row that are set in another.
pub(crate) fn add_words(words: &mut Vec<u64>, width: usize, row: usize, other: usize)
    requires row { row * width + width ≤ length words.old.items }
    requires other { other * width + width ≤ length words.old.items }
    requires apart { row ≢ other }
    ensures size { length words.new.items ≡ length words.old.items }
    ensures bits { (r c : ℕ) → c / 64 < width → bit words.new.items width r c
        ≡ (bit words.old.items width r c || (eqb r row && bit words.old.items width other c)) }
{
    for column in 0..width {
        let more = words[other * width + column];
        words[row * width + column] = words[row * width + column] | more;
    }
}

// Sets the bits of a row that are set in a row of another list of words.
pub(crate) fn add_words_of(
    words: &mut Vec<u64>,
    width: usize,
    row: usize,
    source: &Vec<u64>,
    other: usize,
)
    requires row { row * width + width ≤ length words.old.items }
    requires other { other * width + width ≤ length source.now.items }
    ensures size { length words.new.items ≡ length words.old.items }
    ensures bits { (r c : ℕ) → c / 64 < width → bit words.new.items width r c
        ≡ (bit words.old.items width r c || (eqb r row && bit source.now.items width other c)) }
{
    for column in 0..width {
        let more = source[other * width + column];
        words[row * width + column] = words[row * width + column] | more;
    }
}
