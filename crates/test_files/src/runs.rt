//! Whole runs of a program on listed files.
use crate::listed::{ListedFiles, Target};
use crate::outputs::{ListedNames, NamedFile};
use command::{About, Call, Refusal, read_words};
use std::alloc::Global;

/// A run of a program: the words of the call, what standard input gives unless it is closed, what
/// the program's `run` must return and write to standard output, and the files that it must name,
/// in their order, by their places.
pub type Run = (
    &'static [&'static str],
    Option<&'static [u8]>,
    Result<u8, Refusal>,
    &'static [u8],
    &'static [(&'static str, &'static [u8])],
);

/// Plays runs of a program, each on these files, and returns the words of the first one that ends
/// in another way.
pub fn first_unlike<F>(
    alloc: Global,
    about: &About<'_>,
    files: &[(&str, Target<'_>)],
    runs: &[Run],
    run: F,
) -> Option<&'static [&'static str]>
where
    F: Fn(&ListedFiles<'_>, &Call<'_>, &mut ListedNames, &mut Vec<u8>) -> Result<u8, Refusal>,
    requires { F.IsAlwaysCallable run }
{
    for wanted in runs {
        if ends_well(alloc, about, files, *wanted, &run) != Some(true) {
            return Some(wanted.0);
        }
    }
    None
}

/// Plays a run, and returns whether it ends as it must; `None` if there is no memory or the words
/// make no call.
fn ends_well<F>(
    alloc: Global,
    about: &About<'_>,
    files: &[(&str, Target<'_>)],
    wanted: Run,
    run: &F,
) -> Option<bool>
where
    F: Fn(&ListedFiles<'_>, &Call<'_>, &mut ListedNames, &mut Vec<u8>) -> Result<u8, Refusal>,
    requires { F.IsAlwaysCallable run.now }
{
    let (words, input, answer, output, named) = wanted;
    let system = ListedFiles::new(alloc, files, input);
    let (mut names, mut out) = (ListedNames::new(alloc), Vec::new(alloc));
    let call = call_of(alloc, about, words)?;
    let answered = run(&system, &call, &mut names, &mut out);
    Some(
        answered == answer
            && out.as_slice() == output
            && are_named(names.files(), named)
            && system.count_unnamed() == 0,
    )
}

/// Returns whether these files were named.
fn are_named(files: &[NamedFile], named: &[(&str, &[u8])]) -> bool {
    files.len() == named.len()
        && files.iter().zip(named).all(|(file, (place, bytes))| {
            file.place.as_str() == *place && file.bytes.as_slice() == *bytes
        })
}

fn call_of<'a>(alloc: Global, about: &'a About<'a>, words: &[&str]) -> Option<Call<'a>> {
    let mut given = Vec::new(alloc);
    for word in words {
        let word = String::from_str(alloc, word).ok()?;
        given.push(word).ok()?;
    }
    read_words(
        alloc,
        about.options,
        about.operands.len(),
        given.into_iter(),
    )
    .ok()
}
