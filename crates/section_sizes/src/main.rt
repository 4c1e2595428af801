// Prints the sections of two files of little-endian words: each one's number, place and count, and where the words end.
#![tactic(auto)]

use anyhow::{Context, Result};
use layout_section_reader::Read;
use replay_records::reading::read_full;
use replay_records::words;
use std::rt::Files;
use std::{fs, io};

// A line for each section, and a last one: `end at` the number of words, or `short at` a count that passes it.
fn print_sections(rt: &impl Print, words: &[u32]) -> io::Result<()> {
    let mut position = 0;
    let mut number = 0usize;
    loop {
        match layout_section_reader::section_from(words, position) {
            Read::Section(place, count) => {
                number += 1;
                println!(rt; "section {number} at {place} count {count}")?;
                position = place + count;
            }
            Read::Short => return println!(rt; "short at {position}"),
            Read::End => return println!(rt; "end at {position}"),
        }
    }
}

// The sections of a file of at most 1023 words. Bytes behind the last whole word are left out.
fn print_file(rt: &(impl Files + Print + Eprint), path: &str) -> Result<()> {
    let mut file = match fs::open(rt, path) {
        Ok(file) => file,
        Err(e) => {
            eprintln!(rt; "{path}: {e}")?;
            return Ok(());
        }
    };
    let mut bytes = [0u8; 4096];
    let length = read_full(&mut file, &mut bytes).context(path)?;
    if length == 4096 {
        println!(rt; "too long")?;
        return Ok(());
    }
    let mut words = [0u32; 1024];
    words::copy(&bytes, 0, &mut words);
    if let Some(words) = words.get(..length / 4) {
        print_sections(rt, words)?;
    }
    Ok(())
}

fn main(rt: HostRuntime) -> Result<()> {
    print_file(&rt, "words")?;
    print_file(&rt, "cut")
}
