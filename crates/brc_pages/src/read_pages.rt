//! The pages of L1 to L10.

ghost use Rattle.std.specs.Prelude.{◌≡◌, Some};
ghost use Rattle.brc_pages.specs.Topics.{topic_named};
ghost use Rattle.brc_pages.specs.declared.topic.Topic.TheVariants.{Read};

use crate::page::Page;
use brc_lang::FaultCode;

const READS: &str = "What is read there";

/// Returns the page of a code.
pub fn read_page(code: FaultCode) -> Page
    ensures { topic_named result.code.now ≡ Some (Read code) }
{
    match code {
        FaultCode::FirstLine => FIRST_LINE,
        FaultCode::UnknownWord => UNKNOWN_WORD,
        FaultCode::Number => NUMBER,
        FaultCode::Target => TARGET,
        FaultCode::NameTwice => NAME_TWICE,
        FaultCode::OverLimit => OVER_LIMIT,
        FaultCode::CutOff => CUT_OFF,
        FaultCode::NoMemory => NO_MEMORY,
        FaultCode::Callee => CALLEE,
        FaultCode::StaticList => STATIC_LIST,
    }
}

const FIRST_LINE: Page = Page {
    code: "L1",
    title: "another first line",
    meaning: &[
        "The text doesn't begin with the line `module 1`, `module 2` or `module 3`:",
        "the line is missing, it is another one, or no line feed ends it.",
    ],
    rule_heading: READS,
    rule: &[
        "The first line of a module is `module 1`, `module 2` or `module 3`: the word,",
        "one space, the version of the language, and a line feed (no carriage return,",
        "no byte order mark). From version 2 on functions have parameters and call",
        "others. In version 3 a list has up to 64 cells, and a module may have static",
        "lists. The functions follow below it.",
    ],
    mend: &[
        "Begin the text with the line `module 1`, with `module 2` if a function calls",
        "another one, or with `module 3` if it has long or static lists.",
    ],
    example: &[
        ("module 4", "line 1"),
        ("func f", ""),
        ("fail", ""),
        ("end", ""),
    ],
    printed: "unreadable line 1 L1",
    mended: &[("module 1", ""), ("func f", ""), ("fail", ""), ("end", "")],
};

const UNKNOWN_WORD: Page = Page {
    code: "L2",
    title: "a wrong word",
    meaning: &[
        "A line has a word that can't be there: a first word that is no instruction,",
        "a word too many or too few, another word in place of `else`, a variable",
        "without its `v` or a target without its `@`, a kind or a mode that there",
        "isn't, a function's name of another form, a parameter or a `call` in a text",
        "that begins with `module 1`, a `take` or a `static` line in one that doesn't",
        "begin with `module 3`, a `static` line below a function, or one without",
        "numbers or with more than 64. Or the line is empty.",
    ],
    rule_heading: READS,
    rule: &[
        "Outside a function: `func NAME`, where NAME is a letter a to z and up to 15",
        "more of a to z, 0 to 9 and _. Inside one: an instruction, or `end`.",
        "",
        "  num vD K else @L      list vD N else @L     none vD",
        "  newref vD vS          move vD vS            drop vS",
        "  lock vC               unlock vC",
        "  borrow vD vC I else @L                      fetch vD vC I else @L",
        "  set vC I vS else @L                         put vC I vS else @L",
        "  open vD P MODE else @L                      connect vD P else @L",
        "  read vD vF N else @L                        write vF vN else @L",
        "  as vS KIND else @L    goto @L               again @L N",
        "  ret vS                fail",
        "",
        "Below the first line `module 2` or `module 3` there are two forms more:",
        "",
        "  func NAME borrow KIND steal KIND ..         call vD NAME vA .. else @L",
        "",
        "Below the first line `module 3` there are two more again. Each `static` line",
        "is above all functions, and has 1 to 64 numbers:",
        "",
        "  static K ..                                 take vD S",
        "",
        "A function has up to four parameters, of each `borrow` or `steal` and its",
        "kind, which may be `any` too. A call has up to four arguments.",
        "",
        "vD, vS, vC, vF, vN and vA are variables, v0 to v15. K, N, I, P and S are",
        "numbers. MODE is r, w, rw, wc or rwc; KIND is none, num, list, file or sock.",
        "@L is the number of an instruction, counted from @0. One space is between",
        "two words, and none at the beginning or the end of a line. There are no",
        "comments.",
    ],
    mend: &["Write the line in one of these forms."],
    example: &[
        ("module 1", ""),
        ("func f", ""),
        ("incref v1 v0", "line 3: no such instruction"),
        ("ret v1", ""),
        ("end", ""),
    ],
    printed: "unreadable line 3 L2",
    mended: &[
        ("module 1", ""),
        ("func f", ""),
        ("newref v1 v0", "v1 = Py_NewRef(v0);"),
        ("ret v1", ""),
        ("end", ""),
    ],
};

const NUMBER: Page = Page {
    code: "L3",
    title: "a wrong number",
    meaning: &[
        "A number is out of range, or isn't written as one: it begins with a zero, or",
        "has a sign, a point, a letter or no digit.",
    ],
    rule_heading: READS,
    rule: &[
        "A number has decimal digits alone, without a leading zero (0 itself is one).",
        "",
        "  a variable, v0 to v15               0 to 15",
        "  a target, @0 to @255                0 to 255",
        "  num vD K, and static K ..           0 to 4294967295",
        "  list vD N, its cells                1 to 8, or 1 to 64 in version 3",
        "  take vD S, a static list            0 to 15",
        "  an index I of a list's item         0 to 255",
        "  a path or a peer P                  0 to 15",
        "  read vD vF N, its bytes at most     1 to 4096",
        "  again @L N, how often it goes back  1 to 65535",
    ],
    mend: &["Write a number in this range."],
    example: &[
        ("module 1", ""),
        ("func f", ""),
        ("list v1 9 else @2", "line 3: nine cells"),
        ("ret v1", ""),
        ("fail", ""),
        ("end", ""),
    ],
    printed: "unreadable line 3 L3",
    mended: &[
        ("module 1", ""),
        ("func f", ""),
        ("list v1 8 else @2", "eight at most"),
        ("ret v1", ""),
        ("fail", ""),
        ("end", ""),
    ],
};

const TARGET: Page = Page {
    code: "L4",
    title: "a target that leads the wrong way",
    meaning: &[
        "A target behind `else` or `goto` isn't the number of a later instruction of",
        "the function, or one of `again` isn't its own number or that of an earlier",
        "instruction. It is reported at the line of the function's `end`, since only",
        "there it is known how many instructions there are.",
    ],
    rule_heading: READS,
    rule: &[
        "Instructions are counted from @0, in each function anew; `func` and `end`",
        "aren't counted. `else @L` and `goto @L` lead forward, so that a call ends;",
        "only `again @L N` leads back, N times at most in one call.",
    ],
    mend: &[
        "Count the instructions from @0 and write the number of the one to go on at.",
        "To go back, use `again`.",
    ],
    example: &[
        ("module 1", ""),
        ("func f", ""),
        ("goto @0", "@0 leads to itself"),
        ("fail", "@1"),
        ("end", "line 5"),
    ],
    printed: "unreadable line 5 L4",
    mended: &[
        ("module 1", ""),
        ("func f", ""),
        ("goto @1", "@0"),
        ("fail", "@1"),
        ("end", ""),
    ],
};

const NAME_TWICE: Page = Page {
    code: "L5",
    title: "a name twice",
    meaning: &["An earlier function has the same name."],
    rule_heading: READS,
    rule: &["No two functions of a module have the same name."],
    mend: &["Give the function another name."],
    example: &[
        ("module 1", ""),
        ("func f", ""),
        ("fail", ""),
        ("end", ""),
        ("func f", "line 5"),
        ("fail", ""),
        ("end", ""),
    ],
    printed: "unreadable line 5 L5",
    mended: &[
        ("module 1", ""),
        ("func f", ""),
        ("fail", ""),
        ("end", ""),
        ("func g", ""),
        ("fail", ""),
        ("end", ""),
    ],
};

const OVER_LIMIT: Page = Page {
    code: "L6",
    title: "over a limit",
    meaning: &[
        "There is a 65th function or a 17th static list, or a function has a 257th",
        "instruction or none. Or with a `call` nine calls would be open at once.",
    ],
    rule_heading: READS,
    rule: &[
        "A module has 1 to 64 functions, and each has 1 to 256 instructions. It has 16",
        "static lists at most. At most eight calls are open at once: the function that",
        "is called from outside, one that it calls, one that this one calls, and so on.",
    ],
    mend: &[
        "Divide the module, or the function. A function that does nothing has one",
        "instruction: `fail` (return NULL). Of functions that call each other in a",
        "row of nine or more, write two as one.",
    ],
    example: &[
        ("module 1", ""),
        ("func f", ""),
        ("end", "line 3: no instruction"),
    ],
    printed: "unreadable line 3 L6",
    mended: &[("module 1", ""), ("func f", ""), ("fail", ""), ("end", "")],
};

const CUT_OFF: Page = Page {
    code: "L7",
    title: "the text is cut off",
    meaning: &[
        "The text ends too early: inside a function, before the first one, or in the",
        "middle of a line. Its line number is that of the line that isn't ended, or",
        "of the one that is missing.",
    ],
    rule_heading: READS,
    rule: &[
        "A module has a function at least, each function ends with the line `end`,",
        "and each line, the last one too, ends with a line feed.",
    ],
    mend: &["Add the line that is missing, or the line feed behind the last one."],
    example: &[
        ("module 1", ""),
        ("func f", ""),
        ("fail", "and then nothing: line 4 is missing"),
    ],
    printed: "unreadable line 4 L7",
    mended: &[("module 1", ""), ("func f", ""), ("fail", ""), ("end", "")],
};

const NO_MEMORY: Page = Page {
    code: "L8",
    title: "memory was refused",
    meaning: &[
        "brc needed memory to read the text, and the system gave it none. It says",
        "nothing of the text. `brc` prints `no memory` and ends with status 3.",
    ],
    rule_heading: READS,
    rule: &["Nothing: any text may be refused for want of memory."],
    mend: &["Run brc again with more memory. The text needs no change."],
    example: &[],
    printed: "",
    mended: &[],
};

const CALLEE: Page = Page {
    code: "L9",
    title: "a call that fits no function above",
    meaning: &[
        "No function above the call's own has the name that is called, or the call",
        "has an argument too many or too few.",
    ],
    rule_heading: READS,
    rule: &[
        "`call vD NAME vA .. else @L` calls the function of this name, whose `end` is",
        "above, with one argument for each of its parameters. So a function calls",
        "neither itself nor one below it, and each call ends.",
    ],
    mend: &[
        "Put the function that is called above the one that calls it, and write one",
        "argument for each of its parameters.",
    ],
    example: &[
        ("module 2", ""),
        ("func f", ""),
        ("call v1 f else @1", "line 3: the `end` of f is below"),
        ("fail", ""),
        ("end", ""),
    ],
    printed: "unreadable line 3 L9",
    mended: &[
        ("module 2", ""),
        ("func g", ""),
        ("fail", ""),
        ("end", ""),
        ("func f", ""),
        ("call v1 g else @2", "g is above"),
        ("drop v1", ""),
        ("fail", ""),
        ("end", ""),
    ],
};

const STATIC_LIST: Page = Page {
    code: "L10",
    title: "a static list that isn't there",
    meaning: &["The module has no static list of the number that is taken."],
    rule_heading: READS,
    rule: &[
        "`take vD S` makes a reference to the static list S. The `static` lines of the",
        "module are counted from 0.",
    ],
    mend: &["Count the `static` lines from 0, or add the one that is missing."],
    example: &[
        ("module 3", ""),
        ("static 5 6", "the static list 0"),
        ("func f", ""),
        ("take v1 1", "line 4: there is no static list 1"),
        ("ret v1", ""),
        ("end", ""),
    ],
    printed: "unreadable line 4 L10",
    mended: &[
        ("module 3", ""),
        ("static 5 6", "the static list 0"),
        ("func f", ""),
        ("take v1 0", ""),
        ("ret v1", ""),
        ("end", ""),
    ],
};
