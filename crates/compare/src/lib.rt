// Two outputs with flags, side by side (02's 2026-03): which vertices differ and in what, how many only one of
// the two has, and whether the closed marks differ. Numbers are compared by their bits.
#![tactic(auto)]

ghost use Rattle.std.specs.Prelude.{◌≡◌, map, not, ◌+◌, ◌≤◌, ◌<◌, length, Ok, Err};
ghost use Rattle.std.proofs.lemmas.List.Edits.{sets};
ghost use Rattle.floats.specs.Choice.{when◌give◌else◌};
ghost use Rattle.compare.specs.Compare.{Output as Lent, output, points_of, differ, flag_at, fields_at, any_of, code_of, entries_for, entries_to, number_in, code_in, is_even, is_many, has_room, at_front, outcome, listing, compare_of, none, marks_number};

use refusals::Refusal;
use source::{Rows, Vertices};
use std::marker::Model;

// No output has more: three for each vertex of the largest source.
const MOST_VERTICES: usize = 12288;

// Which of a vertex's numbers differ, and whether the flag of the segment that leaves it does.
#[derive(Clone, Copy)]
pub struct Fields {
    pub x: bool,
    pub y: bool,
    pub bulge: bool,
    pub flag: bool,
}

impl Fields {
    fn any(self) -> bool
        ensures { result ≡ any_of self }
    {
        self.x || self.y || self.bulge || self.flag
    }

    // As one number: a bit for each, x in the lowest.
    pub fn code(self) -> u8
        ensures { result ≡ code_of self }
    {
        u8::from(self.x) + 2 * u8::from(self.y) + 4 * u8::from(self.bulge) + 8 * u8::from(self.flag)
    }
}

// How many vertices are listed, how many only one output has, and whether the closed marks differ.
#[derive(Clone, Copy)]
pub struct Differences {
    pub listed: u32,
    pub unmatched: u32,
    pub marks: bool,
}

impl Differences {
    // What a refusal tells of.
    pub fn none() -> Differences
        ensures { result ≡ none }
    {
        Differences {
            listed: 0,
            unmatched: 0,
            marks: false,
        }
    }

    // 1 where the closed marks differ, and 0 where they do not.
    pub fn marks_number(self) -> u32
        ensures { result ≡ marks_number self }
    {
        u32::from(self.marks)
    }
}

// By their bits: the two zeros differ, and a NaN, of which there is one, differs from every number.
fn differ(x: f64, y: f64) -> bool
    ensures { result ≡ differ x y }
{
    bits::bits_of(x) != bits::bits_of(y)
}

// An output as it is lent: three numbers a vertex, the closed mark, and a flag for each segment.
#[derive(Drop)]
pub struct Output<'a> {
    pub numbers: &'a [f64],
    pub closed: bool,
    pub flags: &'a [u8],
}

impl<'a> Model for Output<'a> {
    ghost Value = { Lent };

    ghost view = { λ o. output o.numbers.now o.closed o.flags.now };
}

impl<'a> Output<'a> {
    fn vertices(&self) -> usize
        ensures { result ≡ length (points_of self.now) }
    {
        self.numbers.len() / 3
    }

    // 0 where no segment leaves the vertex.
    fn flag_at(&self, k: usize) -> u8
        ensures { result ≡ flag_at self.now.flags k }
    {
        if k < self.flags.len() {
            return self.flags[k];
        }
        0
    }

    // Three numbers a vertex, and a flag for each segment.
    fn is_even(&self) -> bool
        ensures { result ≡ is_even self.now }
    {
        Rows(self.numbers).is_whole()
            && self.flags.len() == source::segment_count(self.vertices(), self.closed)
    }

    fn is_many(&self) -> bool
        ensures { result ≡ is_many self.now.numbers }
    {
        self.vertices() > MOST_VERTICES
    }

    // The first test of an output: three numbers a vertex, and a flag for each segment.
    fn check_even(&self) -> Result<(), Refusal>
        ensures { result ≡ (when not (is_even self.now) give Err Refusal.Ragged else Ok tt) }
    {
        if !self.is_even() {
            return Err(Refusal::Ragged);
        }
        Ok(())
    }

    // The second.
    fn check_few(&self) -> Result<(), Refusal>
        ensures { result ≡ (when is_many self.now.numbers give Err Refusal.TooMany else Ok tt) }
    {
        if self.is_many() {
            return Err(Refusal::TooMany);
        }
        Ok(())
    }

    // What differs at a vertex that both have.
    fn fields_at(&self, other: &Output, k: usize) -> Fields
        requires { (k < length (points_of self.now)) × (k < length (points_of other.now)) }
        ensures { result ≡ fields_at (points_of self.now) self.now.flags (points_of other.now) other.now.flags k }
    {
        let v = source::vertex_at(self.numbers, k);
        let w = source::vertex_at(other.numbers, k);
        Fields {
            x: differ(v.x, w.x),
            y: differ(v.y, w.y),
            bulge: differ(v.bulge, w.bulge),
            flag: self.flag_at(k) != other.flag_at(k),
        }
    }
}

fn has_room(count: usize, numbers: usize, fields: usize) -> bool
    ensures { result ≡ has_room count numbers fields }
{
    count <= numbers && count <= fields
}

// How many of the first `most` vertices are listed.
fn count_entries(a: &Output, b: &Output, most: usize) -> usize
    requires { (most ≤ length (points_of a.now)) × (most ≤ length (points_of b.now)) }
    ensures value { result ≡ length (entries_to (points_of a.now) a.now.flags (points_of b.now) b.now.flags most) }
    ensures upper_bound { result ≤ most }
{
    let mut count = 0;
    for k in 0..most {
        count += usize::from(a.fields_at(b, k).any());
    }
    count
}

// Stores vertex k's entry, if it has one, at a place of the list. Answers the place past it.
fn put_entry(k: u32, differing: Fields, at: usize, numbers: &mut [u32], fields: &mut [u8]) -> usize
    requires differing_in_bounds { at + length (entries_for k differing) ≤ length numbers.old }
    requires differing_in_bounds_2 { at + length (entries_for k differing) ≤ length fields.old }
    ensures value { result ≡ at + length (entries_for k differing) }
    ensures numbers_after { numbers.new ≡ sets numbers.old at (map number_in (entries_for k differing)) }
    ensures fields_after { fields.new ≡ sets fields.old at (map code_in (entries_for k differing)) }
{
    if !differing.any() {
        return at;
    }
    numbers[at] = k;
    fields[at] = differing.code();
    at + 1
}

// The list of the first `most` vertices, at the start of both buffers.
fn put_entries(a: &Output, b: &Output, most: usize, numbers: &mut [u32], fields: &mut [u8])
    requires most_in_bounds { (most ≤ length (points_of a.now)) × (most ≤ length (points_of b.now)) × (most ≤ 12288) }
    requires most_in_bounds_2 { length (entries_to (points_of a.now) a.now.flags (points_of b.now) b.now.flags most) ≤ length numbers.old }
    requires most_in_bounds_3 { length (entries_to (points_of a.now) a.now.flags (points_of b.now) b.now.flags most) ≤ length fields.old }
    ensures numbers_after { numbers.new ≡ at_front (map number_in (entries_to (points_of a.now) a.now.flags (points_of b.now) b.now.flags most)) numbers.old }
    ensures fields_after { fields.new ≡ at_front (map code_in (entries_to (points_of a.now) a.now.flags (points_of b.now) b.now.flags most)) fields.old }
{
    let mut at = 0;
    for k in 0..most {
        let differing = a.fields_at(b, k);
        at = put_entry(k as u32, differing, at, numbers, fields);
    }
}

// Of two outputs that can be compared.
fn list(
    a: &Output,
    b: &Output,
    numbers: &mut [u32],
    fields: &mut [u8],
) -> Result<Differences, Refusal>
    requires { (length (points_of a.now) ≤ 12288) × (length (points_of b.now) ≤ 12288) }
    ensures { outcome result numbers.new fields.new ≡ listing a.now b.now numbers.old fields.old }
{
    let v = a.vertices();
    let w = b.vertices();
    let most = v.min(w);
    let count = count_entries(a, b, most);
    if !has_room(count, numbers.len(), fields.len()) {
        return Err(Refusal::NoRoom);
    }
    put_entries(a, b, most, numbers, fields);
    Ok(Differences {
        listed: count as u32,
        unmatched: v.abs_diff(w) as u32,
        marks: a.closed != b.closed,
    })
}

// Lays two outputs side by side. The list goes to the start of `numbers` and `fields`: each vertex number where
// something differs, and what, as one number. A refusal leaves both as they were.
pub fn compare(
    a: &Output,
    b: &Output,
    numbers: &mut [u32],
    fields: &mut [u8],
) -> Result<Differences, Refusal>
    ensures { outcome result numbers.new fields.new ≡ compare_of a.now b.now numbers.old fields.old }
{
    a.check_even()?;
    a.check_few()?;
    b.check_even()?;
    b.check_few()?;
    list(a, b, numbers, fields)
}
