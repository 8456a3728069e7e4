// Tests designs for 16 columns, once for each byte that it reads: `c` and `m` for those made for the circles and for the mixed table,
// `1` to `4` for one of 60, 125, 250 and 500 parts. It writes how many are designs, and a mix of the verdicts that depends on each.
// bench/check/run times it.
#![tactic(auto)]

use schema::design_for;
use std::alloc::{AllocError, Global};
use std::io::Read;
use verdict::{CheckFailure, check_design};

// Rules, and a design for them, as they are lent, and the letter that asks for them.
#[derive(Drop)]
struct Question {
    letter: u8,
    rules: Vec<u64>,
    design: Vec<u64>,
}

// Four blocks of four columns, of which the first and the last are keys.
const FIRST: u64 = 0x000f;

const SECOND: u64 = 0x00f0;

const THIRD: u64 = 0x0f00;

const LAST: u64 = 0xf000;

// Rules around a circle of 16 columns: the shape, moved up by c, fixes the column that lies so many steps behind c.
#[derive(Clone, Copy)]
struct Around {
    shape: u64,
    steps: u64,
}

// A table of 32 rules around the circle.
fn circle(heap: Global, around: [Around; 2]) -> Result<Vec<u64>, AllocError> {
    let mut rules = Vec::new(heap);
    rules.extend_from_slice(&[16, 32])?;
    for Around { shape, steps } in &around {
        for c in 0..16u64 {
            rules.extend_from_slice(&[(*shape << c) & 0xffff, 1 << (c.wrapping_add(*steps) % 16)])?;
        }
    }
    Ok(rules)
}

// Column c fixes c + 1, and besides c + 5, around the circle.
const CIRCLES: [Around; 2] = [Around { shape: 1, steps: 1 }, Around { shape: 1, steps: 5 }];

// Two columns side by side fix a third, and so do two with one between them.
const MIXED: [Around; 2] = [Around { shape: 3, steps: 7 }, Around { shape: 5, steps: 3 }];

// A table with the design that is made for it.
fn made(heap: Global, letter: u8, rules: Vec<u64>) -> Result<Question, AllocError> {
    let mut design = vec![in heap; 0; 2100]?;
    let _ = design_for(rules.as_slice(), design.as_mut_slice());
    Ok(Question {
        letter,
        rules,
        design,
    })
}

// A rule from the key to each column of the block.
fn push_block(row: &mut Vec<u64>, key: u64, block: u64) -> Result<(), AllocError> {
    for c in 0..16u64 {
        if (block >> c) & 1 == 1 {
            row.extend_from_slice(&[key, 1 << c])?;
        }
    }
    Ok(())
}

// The first and the last block each fix every column: 24 rules.
fn blocks(heap: Global) -> Result<Vec<u64>, AllocError> {
    let mut rules = Vec::new(heap);
    rules.extend_from_slice(&[16, 24])?;
    push_block(&mut rules, FIRST, SECOND | THIRD | LAST)?;
    push_block(&mut rules, LAST, FIRST | SECOND | THIRD)?;
    Ok(rules)
}

// A part of the key and the block, with the rules from the key to the block.
fn push_part(row: &mut Vec<u64>, key: u64, block: u64) -> Result<(), AllocError> {
    row.push(key | block)?;
    row.push(4)?;
    push_block(row, key, block)
}

// The five parts that own the rules: the one of both keys owns those of both.
fn push_owners(row: &mut Vec<u64>) -> Result<(), AllocError> {
    push_part(row, FIRST, SECOND)?;
    push_part(row, FIRST, THIRD)?;
    push_part(row, LAST, SECOND)?;
    push_part(row, LAST, THIRD)?;
    row.push(FIRST | LAST)?;
    row.push(8)?;
    push_block(row, FIRST, LAST)?;
    push_block(row, LAST, FIRST)
}

// Whether the set is one of the five.
fn is_owner(set: u64) -> bool {
    let rest = set & (SECOND | THIRD);
    match set & (FIRST | LAST) {
        FIRST | LAST => rest == SECOND || rest == THIRD,
        0xf00f => rest == 0,
        _ => false,
    }
}

// A design of so many parts: the five that own the rules, and others of eight columns, every 25th set of eight. None of them
// lies inside another, and in each of them only what holds a key fixes another column.
fn eights(heap: Global, letter: u8, parts: usize) -> Result<Question, AllocError> {
    let mut design = Vec::new(heap);
    design.push(parts as u64)?;
    push_owners(&mut design)?;
    let others = (0..0x10000u64)
        .filter(|set| set.count_ones() == 8 && !is_owner(*set))
        .skip(24)
        .step_by(25)
        .take(parts.saturating_sub(5));
    for set in others {
        design.extend_from_slice(&[set, 0])?;
    }
    Ok(Question {
        letter,
        rules: blocks(heap)?,
        design,
    })
}

fn questions(heap: Global) -> Result<Vec<Question>, AllocError> {
    let mut all = Vec::new(heap);
    all.push(made(heap, b'c', circle(heap, CIRCLES)?)?)?;
    all.push(made(heap, b'm', circle(heap, MIXED)?)?)?;
    all.push(eights(heap, b'1', 60)?)?;
    all.push(eights(heap, b'2', 125)?)?;
    all.push(eights(heap, b'3', 250)?)?;
    all.push(eights(heap, b'4', 500)?)?;
    Ok(all)
}

// The question of the letter; a letter of none asks for the last.
fn question_of(all: &[Question], letter: u8) -> Option<&Question> {
    all.iter()
        .find(|question| question.letter == letter)
        .or(all.last())
}

// A verdict in the mix: 0 for a design, else the number and the place of the refusal in one.
fn code(verdict: Result<(), CheckFailure>) -> u64 {
    match verdict {
        Ok(()) => 0,
        Err(CheckFailure::Refused(refusal)) => {
            refusal
                .number()
                .wrapping_mul(100)
                .wrapping_add(refusal.place())
        }
        Err(CheckFailure::ShortTableau(_)) => 1,
    }
}

fn run(rt: &HostRuntime) -> anyhow::Result<()> {
    let mut asked = Vec::new(rt.alloc());
    rt.stdin().read_to_end(&mut asked)?;
    let all = questions(rt.alloc())?;
    let mut tableau = vec![in rt.alloc(); [0; 16]; 513]?;
    let mut designs = 0u64;
    let mut mix = 0u64;
    for letter in &asked {
        let Some(question) = question_of(all.as_slice(), *letter) else {
            continue;
        };
        let rules = question.rules.as_slice();
        let verdict = check_design(rules, question.design.as_slice(), tableau.as_mut_slice());
        if verdict.is_ok() {
            designs = designs.wrapping_add(1);
        }
        mix = mix
            .wrapping_mul(31)
            .wrapping_add(code(verdict))
            .wrapping_add(*letter as u64);
    }
    println!(rt; "{designs} are designs, mixed to {mix}")?;
    Ok(())
}

fn main(rt: HostRuntime) -> anyhow::Result<()> {
    run(&rt)
}
