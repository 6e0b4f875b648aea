//! The value of an expression.
ghost use Rattle.std.specs.Prelude.{◌≡◌, ◌+◌, ◌<◌, ◌≤◌, ◌^◌, ◌==◌, ◌&&◌, IsTrue, length, map};
ghost use Rattle.std.specs.List.{list_all};
ghost use Rattle.pm_bits.specs.Operator.{result_of};
ghost use Rattle.pm_bits.specs.Parts.{slice_of, concatenation_of, zero_extension_of, sign_extension_of, truncation_of};
ghost use Rattle.pm_design.specs.Layout.{flat_part, is_part};
ghost use Rattle.pm_design.specs.Nodes.{nodes};
ghost use Rattle.pm_design.specs.Typing.{element_width, result_width, typing};
ghost use Rattle.pm_design.specs.Widths.{total};
ghost use Rattle.pm_block.specs.Run.{temps_of};
ghost use Rattle.pm_block.specs.Sites.{inside_here, scene_here, sight_here, value_here};
ghost use Rattle.pm_block.specs.Value.{concatenated as concatenated_words, joined as joined_words, picked_word};

use crate::places::Places;
use crate::site::{Site, read};
use crate::steps::Steps;
use pm_bits::{Bits, Op};
use pm_design::{Ex, Part};
use std::sync::ledger::Ledger;

// The word of a temporary.
fn held(temps: &[Bits], t: u32) -> Bits
    requires { t < length temps.now }
    ensures { result ≡ temps_of temps.now t }
{
    temps[t as usize]
}

fn slice(word: Bits, lo: u32, width: u32) -> Bits
    requires some { 0 < width }
    requires within { lo + width ≤ word.width }
    ensures { result ≡ slice_of word lo (lo + width) }
{
    let _size = word.width();
    match word.slice(lo, lo + width) {
        Some(part) => part,
        None => unreachable!(),
    }
}

pub(crate) fn zero_of(width: u32) -> Bits
    requires some { 0 < width }
    requires narrow { width ≤ 128 }
    ensures { result ≡ record { width = width; value = 0 } }
{
    match Bits::new(width, 0) {
        Some(word) => word,
        None => unreachable!(),
    }
}

fn applied(op: Op, a: Bits, b: Bits) -> Bits
    requires { a.width ≡ b.width }
    ensures width { result.width ≡ result_width op a.width }
    ensures value { result ≡ result_of op a b }
{
    match op.apply(a, b) {
        Some(word) => word,
        None => unreachable!(),
    }
}

fn with_zeros(a: Bits, n: u32) -> Bits
    requires wide { a.width ≤ n }
    requires narrow { n ≤ 128 }
    ensures { result ≡ zero_extension_of a n }
{
    match a.zext(n) {
        Some(word) => word,
        None => unreachable!(),
    }
}

fn with_sign(a: Bits, n: u32) -> Bits
    requires wide { a.width ≤ n }
    requires narrow { n ≤ 128 }
    ensures { result ≡ sign_extension_of a n }
{
    match a.sext(n) {
        Some(word) => word,
        None => unreachable!(),
    }
}

fn cut(a: Bits, n: u32) -> Bits
    requires some { 0 < n }
    requires within { n ≤ a.width }
    ensures { result ≡ truncation_of a n }
{
    match a.trunc(n) {
        Some(word) => word,
        None => unreachable!(),
    }
}

fn together(high: Bits, low: Bits) -> Bits
    requires { high.width + low.width ≤ 128 }
    ensures { result ≡ concatenation_of high low }
{
    match high.concat(low) {
        Some(word) => word,
        None => unreachable!(),
    }
}

// The word of the part that an index picks, and 0 past the end.
#[tactic(auto, using(pm_design::proofs::Elements::element_passes))]
fn pick<P: Places>(site: &Site, places: &P, parts: &[Part], index: Bits) -> Bits
    requires some { 0 < length parts.now }
    requires parts { IsTrue (list_all (λ p. is_part (P.layout places.now) (flat_part site.now.scope.now p) && p.width == element_width parts.now) parts.now) }
    ensures width { result.width ≡ element_width parts.now }
    ensures value { result ≡ picked_word (scene_here site.now (P.layout places.now)).frame.names (P.at places.now) parts.now index.value }
{
    let width = parts[0].width;
    if index.value() < parts.len() as u128 {
        read(site, places, parts[index.value() as usize])
    } else {
        zero_of(width)
    }
}

/// The value of an expression.
#[cycle(value)]
#[tactic(auto, using(crate::proofs::Equations::value_equations, pm_design::proofs::Typings::typing_equations, pm_design::proofs::Counts::nodes_equations, crate::proofs::Plain::plain_equations, pm_design::proofs::Counts::some_nodes))]
pub fn value_of<P: Places, L: Ledger>(
    site: &Site,
    places: &P,
    temps: &[Bits],
    steps: &mut Steps<L>,
    ex: &Ex,
) -> Bits
    requires room { steps.old + nodes (inside_here site.now).guard ex.now < 2 ^ 64 }
    requires sound { IsTrue (typing (sight_here site.now (P.layout places.now) temps.now) ex.now).fine }
    ensures cost { steps.new ≤ steps.old + nodes (inside_here site.now).guard ex.now }
    ensures some { steps.old < steps.new }
    ensures width { result.width ≡ (typing (sight_here site.now (P.layout places.now) temps.now) ex.now).width }
    ensures value { result ≡ value_here site.now (P.layout places.now) (P.at places.now) (P.held places.now) temps.now ex.now }
{
    steps.tick();
    match ex {
        Ex::Const(c) => *c,
        Ex::Get(part) => read(site, places, *part),
        Ex::Temp(t, lo, width) => slice(held(temps, *t), *lo, *width),
        Ex::Pick(index, parts) => {
            let index = value_of(site, places, temps, steps, index.get());
            pick(site, places, parts.as_slice(), index)
        }
        Ex::Not(a) => value_of(site, places, temps, steps, a.get()).not(),
        Ex::Fold(fold, a) => fold.apply(value_of(site, places, temps, steps, a.get())),
        Ex::Bin(op, a, b) => {
            let left = value_of(site, places, temps, steps, a.get());
            let right = value_of(site, places, temps, steps, b.get());
            applied(*op, left, right)
        }
        Ex::Cat(parts) => concatenated(site, places, temps, steps, parts.as_slice()),
        Ex::Zext(a, n) => with_zeros(value_of(site, places, temps, steps, a.get()), *n),
        Ex::Sext(a, n) => with_sign(value_of(site, places, temps, steps, a.get()), *n),
        Ex::Trunc(a, n) => cut(value_of(site, places, temps, steps, a.get()), *n),
        Ex::Cond(c, a, b) => {
            if value_of(site, places, temps, steps, c.get()).value() == 0 {
                value_of(site, places, temps, steps, b.get())
            } else {
                value_of(site, places, temps, steps, a.get())
            }
        }
        Ex::Number(_) | Ex::Count(_) | Ex::Item(_, _) | Ex::Last(_) | Ex::Ready(_) =>
            unreachable!(),
    }
}

// The words of expressions in one, the first most significant.
#[cycle(value)]
fn concatenated<P: Places, L: Ledger>(
    site: &Site,
    places: &P,
    temps: &[Bits],
    steps: &mut Steps<L>,
    parts: &[Ex],
) -> Bits
    requires some { 0 < length parts.now }
    requires room { steps.old + total (map (nodes (inside_here site.now).guard) parts.now) < 2 ^ 64 }
    requires sound { IsTrue (list_all (λ t. t.fine) (map (typing (sight_here site.now (P.layout places.now) temps.now)) parts.now)) }
    requires narrow { total (map (λ t. t.width) (map (typing (sight_here site.now (P.layout places.now) temps.now)) parts.now)) ≤ 128 }
    ensures cost { steps.new ≤ steps.old + total (map (nodes (inside_here site.now).guard) parts.now) }
    ensures later { steps.old ≤ steps.new }
    ensures width { result.width ≡ total (map (λ t. t.width) (map (typing (sight_here site.now (P.layout places.now) temps.now)) parts.now)) }
    ensures value { result ≡ concatenated_words (map (value_here site.now (P.layout places.now) (P.at places.now) (P.held places.now) temps.now) parts.now) }
{
    match parts {
        [] => unreachable!(),
        [first, others @ ..] => {
            let word = value_of(site, places, temps, steps, first);
            joined(site, places, temps, steps, word, others)
        }
    }
}

// A word, and those of expressions below it in turn.
#[cycle(value)]
fn joined<P: Places, L: Ledger>(
    site: &Site,
    places: &P,
    temps: &[Bits],
    steps: &mut Steps<L>,
    word: Bits,
    parts: &[Ex],
) -> Bits
    requires room { steps.old + total (map (nodes (inside_here site.now).guard) parts.now) < 2 ^ 64 }
    requires sound { IsTrue (list_all (λ t. t.fine) (map (typing (sight_here site.now (P.layout places.now) temps.now)) parts.now)) }
    requires narrow { word.width + total (map (λ t. t.width) (map (typing (sight_here site.now (P.layout places.now) temps.now)) parts.now)) ≤ 128 }
    ensures cost { steps.new ≤ steps.old + total (map (nodes (inside_here site.now).guard) parts.now) }
    ensures later { steps.old ≤ steps.new }
    ensures width { result.width ≡ word.width + total (map (λ t. t.width) (map (typing (sight_here site.now (P.layout places.now) temps.now)) parts.now)) }
    ensures value { result ≡ joined_words word (map (value_here site.now (P.layout places.now) (P.at places.now) (P.held places.now) temps.now) parts.now) }
{
    match parts {
        [] => word,
        [next, others @ ..] => {
            let low = value_of(site, places, temps, steps, next);
            joined(site, places, temps, steps, together(word, low), others)
        }
    }
}
