// The examples E1 to E10 of document 01, each with its line, and the sizes that only the inclusion call itself refuses. Brackets hold
// children.
#![tactic(auto)]

use matching::{Answer, Corner, Refusal};
use std::io;

// Writes an answer's line: the corner, and on a yes the images of the map slice; or the refusal.
fn say(rt: &impl Print, answer: Result<Answer, Refusal>, map: &[u16]) -> io::Result<()> {
    match answer {
        Ok(Answer::Included(Corner { width, row })) => {
            print!(rt; "included {width} {row}")?;
            for image in map {
                print!(rt; " {image}")?;
            }
            println!(rt)
        }
        Ok(Answer::Absent(Corner { width, row })) => println!(rt; "absent {width} {row}"),
        Err(refusal) => println!(rt; "refused {refusal}"),
    }
}

// Asks whether a listing includes a recipe, with a map of one slot for each recipe row, and writes the answer's line.
fn ask<const R: usize, const L: usize>(
    rt: &impl Print,
    recipe_depths: &[u16; R],
    recipe_labels: &[u32; R],
    listing_depths: &[u16; L],
    listing_labels: &[u32; L],
) -> io::Result<()> {
    let mut map = [0; R];
    let answer = matching::include(
        listing_depths,
        listing_labels,
        recipe_depths,
        recipe_labels,
        &mut map,
    );
    say(rt, answer, &map)
}

// E1 to E10.
fn examples(rt: &impl Print) -> io::Result<()> {
    // 10(20) in 10(30(20))
    ask(rt, &[0, 1], &[10, 20], &[0, 1, 2], &[10, 30, 20])?;
    // 10(20) in 10(20)
    ask(rt, &[0, 1], &[10, 20], &[0, 1], &[10, 20])?;
    // 10(20 30) in 10(30 20)
    ask(rt, &[0, 1, 1], &[10, 20, 30], &[0, 1, 1], &[10, 30, 20])?;
    // 10 in nothing
    ask(rt, &[0], &[10], &[], &[])?;
    // 10(20) in 10(20 10(20))
    ask(rt, &[0, 1], &[10, 20], &[0, 1, 1, 2], &[10, 20, 10, 20])?;
    // the forest 10, 20 in 10(20)
    ask(rt, &[0, 0], &[10, 20], &[0, 1], &[10, 20])?;
    // 10(10) in 10(10(10))
    ask(rt, &[0, 1], &[10, 10], &[0, 1, 2], &[10, 10, 10])?;
    // 10(20(30) 40) in 10(20(40) 30)
    ask(
        rt,
        &[0, 1, 2, 1],
        &[10, 20, 30, 40],
        &[0, 1, 2, 1],
        &[10, 20, 40, 30],
    )?;
    // 10(20 20) in 10(20(20))
    ask(rt, &[0, 1, 1], &[10, 20, 20], &[0, 1, 2], &[10, 20, 20])?;
    // 10(20) in 20
    ask(rt, &[0, 1], &[10, 20], &[0], &[20])
}

// 256 recipe rows and 4,096 listing rows are taken, one more of either is refused; and so is a map of one slot for two recipe rows.
fn sizes(rt: &impl Print) -> io::Result<()> {
    ask(rt, &[0; 256], &[10; 256], &[0; 4096], &[20; 4096])?;
    ask(rt, &[0; 257], &[10; 257], &[0], &[10])?;
    ask(rt, &[0], &[10], &[0; 4097], &[10; 4097])?;
    let mut map = [0];
    let answer = matching::include(&[0, 1], &[10, 20], &[0, 1], &[10, 20], &mut map);
    say(rt, answer, &map)
}

fn main(rt: HostRuntime) -> io::Result<()> {
    examples(&rt)?;
    sizes(&rt)
}
