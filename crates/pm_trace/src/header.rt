//! The header of vectors.
ghost use Rattle.std.specs.Prelude.{◌≡◌, ◌<◌, ◌^◌, IfOk, length, option_map};
ghost use Rattle.name_places.specs.Places.{FindsPlaces};
ghost use Rattle.pm_trace.specs.Headers as spec;
ghost use Rattle.pm_trace.specs.Headers.{ReadsHeader, Names};

use crate::fault::HeadFault;
use crate::words::next_word;
use name_places::{add_place, place_in};
use pm_io::{List, NoMemory, Text};
use pm_values::Table;
use std::alloc::Global;

/// The columns of vectors.
#[derive(Drop)]
pub struct Header {
    /// For each word of the header, the place among the inputs of the one that it names.
    pub port_of: List<u32>,
}

// What the words of a header name.
#[derive(Drop)]
struct Columns {
    // For each word, the place of the input that it names.
    port_of: List<u32>,
    // The words.
    words: Table<()>,
}

/// Reads a line as the header of vectors for inputs with these names.
pub fn read_header_at(alloc: Global, inputs: &[Text], line: &[u8]) -> Result<Header, HeadFault>
    requires { length inputs.now < 2 ^ 32 }
    ensures { ReadsHeader inputs.now line.now result }
{
    match columns_in(alloc, inputs, line) {
        Ok(Columns { port_of, words }) => match unnamed(inputs, &words) {
            Some(name) => Err(bad_header(alloc, name)),
            None => Ok(Header { port_of }),
        },
        Err(fault) => Err(fault),
    }
}

// The inputs that the words name, each once.
fn columns_in(alloc: Global, inputs: &[Text], line: &[u8]) -> Result<Columns, HeadFault>
    requires { length inputs.now < 2 ^ 32 }
    ensures { spec.ReadsColumns inputs.now line.now result }
{
    let places = places_of(alloc, inputs)?;
    let mut port_of = List::new(alloc);
    let mut words = Table::new(alloc);
    let mut rest = line;
    'line_words: while let Some((word, after)) = next_word(rest) {
        match new_place(&places, &words, word) {
            Some(place) => {
                port_of.push(place)?;
                words.put(alloc, word, ())?;
            }
            None => return Err(bad_header(alloc, word)),
        }
        rest = after;
    }
    Ok(Columns { port_of, words })
}

// The places of the inputs, by their names.
fn places_of(alloc: Global, inputs: &[Text]) -> Result<Table<u32>, NoMemory>
    requires { length inputs.now < 2 ^ 32 }
    ensures { IfOk result (FindsPlaces (λ name. name) inputs.now) }
{
    let mut places = Table::new(alloc);
    for (place, name) in inputs.iter().enumerate() {
        add_place(alloc, &mut places, name.as_slice(), place as u32)?;
    }
    Ok(places)
}

// The place of the input that a word names, unless it is one of the words before.
fn new_place(places: &Table<u32>, words: &Table<()>, word: &[u8]) -> Option<u32>
    ensures { result ≡ spec.new_place places.now words.now word.now }
{
    if words.contains(word) {
        None
    } else {
        place_in(places, word)
    }
}

// The first input that is none of the words.
#[tactic(auto, unfolding(crate::specs::Headers::unnamed))]
fn unnamed<'a>(inputs: &'a [Text], words: &Table<()>) -> Option<&'a [u8]>
    ensures { option_map (λ name. name.now) result ≡ spec.unnamed words.now inputs.entry.now }
{
    'inputs: for name in inputs {
        if !words.contains(name.as_slice()) {
            return Some(name.as_slice());
        }
    }
    None
}

// The fault of a word.
fn bad_header(alloc: Global, word: &[u8]) -> HeadFault
    ensures { Names word.now result }
{
    match Text::from_slice(alloc, word) {
        Ok(word) => HeadFault::BadHeader(word),
        Err(_) => HeadFault::NoMemory,
    }
}
