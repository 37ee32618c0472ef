use eval_words::{EvalWords, Language, read_eval_words};
use std::alloc::Global;
use std::process::Abort;
use std::string::String;
use std::test::Fail;

// What the words of a text ask for, in one line.
fn asked(alloc: Global, text: &str) -> Result<String, Fail> {
    let mut words = Vec::new(alloc);
    for word in text.split(' ') {
        if !word.is_empty() {
            words.push(String::from_str(alloc, word)?)?;
        }
    }
    match read_eval_words(alloc, &words)? {
        None => Ok(format!(in alloc; "usage")?),
        Some(EvalWords::Generate(count)) => Ok(format!(in alloc; "gen {count}")?),
        Some(EvalWords::Run(run)) => {
            let language = match run.language {
                Language::Source => "sv",
                Language::Target => "v",
            };
            let mut line = format!(in alloc;
                "{language} {} {}",
                run.top.as_bytes().escape_ascii(),
                run.rows.as_bytes().escape_ascii()
            )?;
            for file in run.files.as_slice() {
                line.push(' ')?;
                line.push_str(&format!(in alloc; "{}", file.as_bytes().escape_ascii())?)?;
            }
            Ok(line)
        }
    }
}

// Words, and what they ask for.
const CASES: &[(&str, &str)] = &[
    ("--lang sv --top m r.txt a.sv", "sv m r.txt a.sv"),
    ("--lang=v --top=m r.txt a.v", "v m r.txt a.v"),
    ("r.txt a.sv b.sv --top m --lang sv", "sv m r.txt a.sv b.sv"),
    ("r.txt --top m a.sv --lang sv b.sv", "sv m r.txt a.sv b.sv"),
    ("--lang sv --top m -- r.txt -a.sv", "sv m r.txt -a.sv"),
    ("--lang v --top m r.txt a.v b.v", "usage"),
    ("--lang vhdl --top m r.txt a.v", "usage"),
    ("--lang sv r.txt a.sv", "usage"),
    ("--top m r.txt a.sv", "usage"),
    ("--lang sv --top m r.txt", "usage"),
    ("--lang sv --top m --top n r.txt a.sv", "usage"),
    ("--lang sv --top m -x r.txt a.sv", "usage"),
    ("--lang sv --top m --help r.txt a.sv", "usage"),
    ("--help", "usage"),
    ("--version", "usage"),
    ("", "usage"),
    ("--gen 3", "gen 3"),
    ("--gen 500", "gen 500"),
    ("--gen 501", "usage"),
    ("--gen 0", "usage"),
    ("--gen 03", "usage"),
    ("--gen 3 4", "usage"),
    ("--gen", "usage"),
    ("--gen=3", "usage"),
    ("--gen 1x", "usage"),
];

#[test]
fn words_of_the_evaluator(rt: HostRuntime) -> Result<(), Fail> {
    let alloc = rt.alloc();
    for (words, want) in CASES {
        assert_eq!(rt; asked(alloc, words)?.as_str(), *want);
    }
    Ok(())
}
