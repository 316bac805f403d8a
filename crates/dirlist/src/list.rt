// The lines that are printed. A place of the joined text is printed as the physical one that the map has for it.
use crate::C_OMP;
use clause::ClauseRecord;
use reader::Reading;
use refusal::Refusal;
use std::io;

// The map has each place that is printed; 0 stands for one that it had not, and no Option: the listing has a number in each column.
fn physical(map: &[u16], place: impl Into<usize>) -> usize {
    map.get(place.into()).copied().map_or(0, usize::from)
}

fn clause(rt: &impl Print, r: ClauseRecord, map: &[u16]) -> io::Result<()> {
    let name_start = physical(map, r.name_start);
    let name_end = physical(map, r.name_end);
    print!(rt; "clause {name_start} {name_end}")?;
    if r.parenthesized {
        let start = physical(map, r.content_start);
        let end = physical(map, r.content_end);
        print!(rt; " paren {start} {end}")?;
    } else {
        print!(rt; " bare 0 0")?;
    }
    println!(rt; " {} {}", u8::from(r.preceded), u8::from(r.trailing))
}

pub fn reading(
    rt: &impl Print,
    read: Reading,
    records: &[ClauseRecord],
    map: &[u16],
) -> io::Result<()> {
    let start = physical(map, read.name_start);
    let end = physical(map, read.name_end);
    println!(rt; "name {start} {end} {}", read.entry)?;
    for r in records.iter().take(read.count) {
        clause(rt, *r, map)?;
    }
    println!(rt; "rest {}", physical(map, read.rest))
}

// From 7 on, by the table's numbers, a refusal's place is one of the joined text. The refusal zeroed the map, so the line is joined again. The
// reasons that come before 7 are a range of the table's numbers; to name them would be no plainer.
fn place_of(refused: Refusal, line: &[u8], text: &mut [u8], map: &mut [u16]) -> usize {
    if u8::from(refused.reason) < 7 {
        return refused.place;
    }
    let _ = source::join_line(C_OMP, line, text, map);
    physical(map, refused.place)
}

pub fn refused(
    rt: &impl Print,
    refused: Refusal,
    line: &[u8],
    text: &mut [u8],
    map: &mut [u16],
) -> io::Result<()> {
    let place = place_of(refused, line, text, map);
    println!(rt; "refused {} {place}", u8::from(refused.reason))
}
