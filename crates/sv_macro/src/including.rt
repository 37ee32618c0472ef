// Where an included file is looked for (IEEE 1800-2017 clause 22.4).
ghost use Rattle.std.specs.Prelude.{◌≡◌, ◌++◌, OnOk, IfOk, map};
ghost use Rattle.sv_macro.specs.Including as spec;

use crate::texts::Texts;
use std::alloc::{AllocError, Global};
use sv_source::Text;

/// The bytes between a string's quotes.
pub fn between_quotes(text: &[u8]) -> &[u8]
    ensures { result.now ≡ spec.between_quotes text.now }
{
    match text {
        [_, inner @ .., _] => inner,
        _ => &[],
    }
}

fn begins_slash(path: &[u8]) -> bool
    ensures { result ≡ spec.begins_slash path.now }
{
    match path {
        [first, ..] => *first == b'/',
        [] => false,
    }
}

fn ends_slash(path: &[u8]) -> bool
    ensures { result ≡ spec.ends_slash path.now }
{
    match path {
        [.., last] => *last == b'/',
        [] => false,
    }
}

// A path up to its last slash inclusive, or nothing.
fn directory_of(path: &[u8]) -> &[u8]
    ensures { result.now ≡ spec.directory_of path.now }
{
    let mut directory = path;
    while let [front @ .., last] = directory {
        if *last == b'/' {
            return directory;
        }
        directory = front;
    }
    directory
}

// A path in a directory.
fn in_directory(alloc: Global, directory: &[u8], path: &[u8]) -> Result<Text, AllocError>
    ensures { IfOk result (λ joined. joined ≡ spec.in_directory path.now directory.now) }
{
    let mut joined = Text::from_bytes(alloc, directory)?;
    if !ends_slash(directory) {
        joined.push(b'/')?;
    }
    joined.push_bytes(path)?;
    Ok(joined)
}

fn add_directories(
    alloc: Global,
    paths: &mut Texts,
    directories: &[Text],
    path: &[u8],
) -> Result<(), AllocError>
    ensures { OnOk result (paths.new ≡ paths.old ++ map (spec.in_directory path.now) directories.now) }
{
    for directory in directories {
        paths.push(in_directory(alloc, directory.as_bytes(), path)?)?;
    }
    Ok(())
}

/// Where the file may be.
pub fn candidates(
    alloc: Global,
    directories: &[Text],
    including: &[u8],
    path: &[u8],
) -> Result<Texts, AllocError>
    ensures { IfOk result (λ paths. paths ≡ spec.candidates directories.now including.now path.now) }
{
    let mut paths = Texts::new(alloc);
    if begins_slash(path) {
        paths.push(Text::from_bytes(alloc, path)?)?;
        return Ok(paths);
    }
    let mut first = Text::from_bytes(alloc, directory_of(including))?;
    first.push_bytes(path)?;
    paths.push(first)?;
    add_directories(alloc, &mut paths, directories, path)?;
    Ok(paths)
}
