// Reads lists of calls as text, runs them, and prints what each leaves.

#![tactic(auto)]

mod parts;
mod rows;

ghost use Rattle.std.specs.Prelude.{◌≡◌, ◌≤◌, length};
ghost use Rattle.parsing.specs.Split.{Held};
ghost use Rattle.tapes.specs.Kept.{Kept};
ghost use Rattle.tapes.specs.Parts.{left_after};
ghost use Rattle.tapes.specs.Printed.{left_text, run_text, parts_text, list_text, lists_after, lists_text};

use multimap::Limits;
use parts::{Parts, marks_in, numbers_in, read_numbers};
use rows::Page;

// Runs the lists of the text one after the other, and prints them to the front of `out`, as far as there is room. Answers how many bytes it wrote.
pub fn answer_lists(text: &[u8], out: &mut [u8]) -> usize
    ensures { Held (lists_text text.now) out.old 0 out.new result }
{
    let mut parts = Parts { left: text };
    let mut page = Page { out, at: 0 };
    while !parts.left.is_empty() {
        answer_list(&mut parts, &mut page);
    }
    page.at
}

// Prints how many calls were run, and what their answers and slices hold.
fn print_left(page: &mut Page, ran: u64, answers: &[u64], outs: &[u64], outs2: &[u64])
    ensures { Kept page.old (left_text ran answers.now outs.now outs2.now) page.new }
{
    page.put(b" ran");
    page.put_after(b' ', ran);
    page.put_rows(answers, 4);
    page.put(b"\nouts");
    page.put_rows(outs, 16);
    page.put(b"\nouts2");
    page.put_rows(outs2, 16);
    page.put(b"\n");
}

// Runs the calls that the slices hold on the new map with these limits, and prints what they leave.
fn print_run(
    page: &mut Page,
    limits: Limits,
    calls: &[u64],
    outs: &mut [u64],
    outs2: &mut [u64],
    marks: &[u8],
    answers: &mut [u64],
)
    ensures { Kept page.old (run_text limits calls.now outs.old outs2.old marks.now answers.old) page.new }
{
    let ran = replay::replay(limits, calls, outs, outs2, marks, answers);
    print_left(page, ran, answers, outs, outs2);
}

// Runs and prints the list whose parts, from its limits on, come next.
fn print_parts(parts: &mut Parts, page: &mut Page)
    ensures printed { Kept page.old (parts_text parts.old.left.now) page.new }
    ensures left { parts.new.left.now ≡ left_after parts.old.left.now }
{
    let mut limits = [0u64; 2];
    let mut calls = [0u64; 57344];
    let mut outs = [0u64; 8192];
    let mut outs2 = [0u64; 8192];
    let mut marks = [0u8; 8192];
    let mut answers = [0u64; 32768];
    read_numbers(parts.next_part(), &mut limits);
    let [members, rounds] = limits;
    let calls = numbers_in(parts.next_part(), &mut calls);
    let outs = numbers_in(parts.next_part(), &mut outs);
    let outs2 = numbers_in(parts.next_part(), &mut outs2);
    let marks = marks_in(parts.next_part(), &mut marks);
    let answers = numbers_in(parts.next_part(), &mut answers);
    print_run(
        page,
        Limits { members, rounds },
        calls,
        outs,
        outs2,
        marks,
        answers,
    );
}

// Runs and prints the first list of the text. Where no semicolon is left, there is none.
fn answer_list(parts: &mut Parts, page: &mut Page)
    requires { page.old.at ≤ length page.old.out.now }
    ensures printed { Kept page.old (list_text parts.old.left.now) page.new }
    ensures left { parts.new.left.now ≡ lists_after parts.old.left.now }
{
    let text = parts.left;
    let name = parts.next_part();
    if name.len() < text.len() {
        page.put(name);
        print_parts(parts, page);
    }
}
