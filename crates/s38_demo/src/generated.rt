ghost use Rattle.std.specs.Prelude.{◌≡◌, ◌≤◌, ◌++◌, IfOk, OnOk};
ghost use Rattle.s38_template.specs.Grammar.{Spells};
ghost use Rattle.s38_demo.specs.GeneratedDeck.{amount, deck_of, generated, generated_job_line, generated_lines, line_with_feed, post, post_back, post_front, post_head, post_job, post_jobs, post_name, post_sum, posts, setup, stage, text_of_lines, total};

use crate::text::{add, add_line, add_lines, add_number};
use s38_base::NoMemory;
use std::alloc::Global;

const SETUP: &[&[u8]] = &[
    b"PROGRAM SETUP",
    b"DCL C PTR",
    b"DCL D PTR",
    b"DCL S PTR",
    b"DCL P PTR",
    b"DCL K PTR",
    b"DCL Z PKD:9:0",
    b"CRTCTX C,CONTEXT/00/SHOP,ALL",
    b"CRTDS D,C,DATASPACE/00/TOTALS,ALL,PKD:9:0",
    b"CRTJS S,C,JSPACE/00/JS,ALL",
    b"ENSOBJ S",
    b"CRTJP P,C,JPORT/00/JP,ALL,S",
    b"ENSOBJ P",
    b"JRNLOBJ D,P",
    b"CRTCR K,C,CURSOR/00/FIRST,ALL,D,*NONE",
    b"INSDSEN K,Z",
    b"RTX",
    b"END",
];

/// The text of a posting before the sum.
const POST_FRONT: &[&[u8]] = &[
    b"DCL C PTR",
    b"DCL D PTR",
    b"DCL P PTR",
    b"DCL B PTR",
    b"DCL K PTR",
    b"DCL V PKD:9:0",
    b"RSLVSP C,*MACHINE,CONTEXT/00/SHOP,NONE",
    b"RSLVSP D,C,DATASPACE/00/TOTALS,NONE",
    b"RSLVSP P,C,JPORT/00/JP,NONE",
    b"CRTCB B,*NONE,CBLOCK/00/B,NONE,P",
    b"CRTCR K,*NONE,CURSOR/00/K,NONE,D,B",
    b"LOCK D,LENR,WAIT",
    b"SETCR K,FIRST,0",
    b"RETDSEN V,K",
];

/// The text after it.
const POST_BACK: &[&[u8]] = &[b"UPDSEN K,V", b"COMMIT B", b"UNLOCK D,LENR", b"RTX", b"END"];

const TOTAL: &[&[u8]] = &[
    b"PROGRAM TOTAL",
    b"DCL C PTR",
    b"DCL D PTR",
    b"DCL K PTR",
    b"DCL V PKD:9:0",
    b"RSLVSP C,*MACHINE,CONTEXT/00/SHOP,NONE",
    b"RSLVSP D,C,DATASPACE/00/TOTALS,NONE",
    b"CRTCR K,*NONE,CURSOR/00/K,NONE,D,*NONE",
    b"SETCR K,FIRST,0",
    b"RETDSEN V,K",
    b"RTX",
    b"END",
];

/// Adds the lines of the template of SETUP.
#[tactic(auto, unfolding(crate::specs::GeneratedDeck::setup))]
fn add_setup(text: &mut Vec<u8>) -> Result<(), NoMemory>
    ensures { OnOk result (text.new.items ≡ text.old.items ++ text_of_lines setup) }
{
    add_lines(text, SETUP)
}

#[tactic(auto, unfolding(crate::specs::GeneratedDeck::post_front))]
fn add_post_front(text: &mut Vec<u8>) -> Result<(), NoMemory>
    ensures { OnOk result (text.new.items ≡ text.old.items ++ text_of_lines post_front) }
{
    add_lines(text, POST_FRONT)
}

#[tactic(auto, unfolding(crate::specs::GeneratedDeck::post_back))]
fn add_post_back(text: &mut Vec<u8>) -> Result<(), NoMemory>
    ensures { OnOk result (text.new.items ≡ text.old.items ++ text_of_lines post_back) }
{
    add_lines(text, POST_BACK)
}

/// Adds the lines of the template of TOTAL.
#[tactic(auto, unfolding(crate::specs::GeneratedDeck::total))]
fn add_total(text: &mut Vec<u8>) -> Result<(), NoMemory>
    ensures { OnOk result (text.new.items ≡ text.old.items ++ text_of_lines total) }
{
    add_lines(text, TOTAL)
}

fn add_post_name(text: &mut Vec<u8>, number: u32) -> Result<(), NoMemory>
    ensures { OnOk result (text.new.items ≡ text.old.items ++ post_name number) }
{
    add(text, b"POST")?;
    add_number(text, number)
}

fn add_post_head(text: &mut Vec<u8>, number: u32) -> Result<(), NoMemory>
    ensures { OnOk result (text.new.items ≡ text.old.items ++ line_with_feed (post_head number)) }
{
    add(text, b"PROGRAM ")?;
    add_post_name(text, number)?;
    add(text, b"\n")
}

fn add_post_sum(text: &mut Vec<u8>, number: u32) -> Result<(), NoMemory>
    requires { number ≤ 200 }
    ensures { OnOk result (text.new.items ≡ text.old.items ++ line_with_feed (post_sum number)) }
{
    add(text, b"ADDN V,V,")?;
    add_number(text, 7 * number % 100 + 1)?;
    add(text, b"\n")
}

/// Adds the lines of the template of a posting.
fn add_post(text: &mut Vec<u8>, number: u32) -> Result<(), NoMemory>
    requires { number ≤ 200 }
    ensures { OnOk result (text.new.items ≡ text.old.items ++ text_of_lines (post number)) }
{
    add_post_head(text, number)?;
    add_post_front(text)?;
    add_post_sum(text, number)?;
    add_post_back(text)?;
    Ok(())
}

/// Adds the lines of the templates of postings, from 1 on.
fn add_posts(text: &mut Vec<u8>, size: u32) -> Result<(), NoMemory>
    requires { size ≤ 200 }
    ensures { OnOk result (text.new.items ≡ text.old.items ++ text_of_lines (posts size)) }
{
    for number in 1..size + 1 {
        add_post(text, number)?;
    }
    Ok(())
}

/// Adds the line of the job of a posting.
fn add_post_job(text: &mut Vec<u8>, number: u32) -> Result<(), NoMemory>
    ensures { OnOk result (text.new.items ≡ text.old.items ++ line_with_feed (post_job number)) }
{
    add(text, b"JOB ")?;
    add_post_name(text, number)?;
    add(text, b" USER QSECOFR RUN ")?;
    add_post_name(text, number)?;
    add(text, b"\n")
}

/// Adds the lines of the jobs of postings, from 1 on.
fn add_post_jobs(text: &mut Vec<u8>, size: u32) -> Result<(), NoMemory>
    requires { size ≤ 200 }
    ensures { OnOk result (text.new.items ≡ text.old.items ++ text_of_lines (post_jobs size)) }
{
    for number in 1..size + 1 {
        add_post_job(text, number)?;
    }
    Ok(())
}

/// The text of the generated deck of so many postings: their templates between those of SETUP and TOTAL, and then
/// three stages of jobs, each of which runs the template of its name under the security officer. The text spells a
/// deck for each of these counts.
pub fn deck_of(alloc: Global, size: u32) -> Result<Vec<u8>, NoMemory>
    requires first { 1 ≤ size }
    requires last { size ≤ 200 }
    ensures text { IfOk result (λ text. text.items ≡ deck_of size) }
    ensures spelled { IfOk result (λ text. Spells text.items (generated size)) }
{
    let mut text = Vec::new(alloc);
    add_setup(&mut text)?;
    add_posts(&mut text, size)?;
    add_total(&mut text)?;
    add(
        &mut text,
        b"STAGE\nJOB SETUP USER QSECOFR RUN SETUP\nSTAGE\n",
    )?;
    add_post_jobs(&mut text, size)?;
    add(&mut text, b"STAGE\nJOB TOTAL USER QSECOFR RUN TOTAL\n")?;
    Ok(text)
}
