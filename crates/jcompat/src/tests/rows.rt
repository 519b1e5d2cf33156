//! Rows of runs, as lines of a table.
//!
//! A row begins with `#`, the exit status and what is shown, where the numbers of calls that fail may
//! stand, as `trees=1 folder=1 out=1 err=1`, and how many files of a witness are put then, as `held=1`.
//! Each further line is a mark, a space and a text, and three marks serve within a line too:
//!
//! - `:`: files, with ` | ` between them;
//! - `>`: what is put to the output, and `!`: to the error stream, with ` | ` between lines;
//! - `$`: the words, in place of what is shown;
//! - `*`: a witness that a check puts.
//!
//! Lines before the first row are lines of each row. `~` is nothing, so that a word may be empty; `^` is a
//! line's end in a word, and `\` ends what is put without a line's end.
use super::assembler::{cut, file_of};
use jc_base::mem_file::MemFile;
use jc_base::text::Text;
use std::alloc::{AllocError, Global};

/// A row, and the lines before the first one.
#[derive(Drop)]
pub(super) struct Row<'a> {
    pub(super) common: &'a str,
    pub(super) own: &'a str,
}

// The text of a line with this mark.
fn behind<'a>(line: &'a str, mark: &str) -> Option<&'a str> {
    let (found, text) = cut(line, " ");
    if found == mark { Some(text) } else { None }
}

/// The table, where each mark begins a line.
///
/// # Errors
///
/// `AllocError` where memory runs out.
pub(super) fn in_lines(alloc: Global, table: &str) -> Result<String, AllocError> {
    let table = table.replace(alloc, " : ", "\n: ")?;
    let table = table.as_str().replace(alloc, " > ", "\n> ")?;
    table.as_str().replace(alloc, " ! ", "\n! ")
}

// The text that is meant.
fn meant(alloc: Global, text: &str) -> Result<String, AllocError> {
    let text = text.replace(alloc, '~', "")?;
    text.as_str().replace(alloc, '^', "\n")
}

/// The words of a line.
///
/// # Errors
///
/// `AllocError` where memory runs out.
pub(super) fn words_of(alloc: Global, line: &str) -> Result<Vec<Text>, AllocError> {
    let mut words = Vec::new(alloc);
    for word in line.split_whitespace() {
        words.push(Text::from_str(alloc, meant(alloc, word)?.as_str())?)?;
    }
    Ok(words)
}

// Puts the file of a text under each of its roots, with `,` between them.
fn put_file(alloc: Global, files: &mut Vec<MemFile>, text: &str) -> Result<(), AllocError> {
    let (roots, file) = cut(text, " ");
    for root in roots.split(',') {
        files.push(file_of(alloc, root, file)?)?;
    }
    Ok(())
}

fn put_files(alloc: Global, files: &mut Vec<MemFile>, text: &str) -> Result<(), AllocError> {
    for file in text.split(" | ") {
        put_file(alloc, files, file)?;
    }
    Ok(())
}

fn push_lines(alloc: Global, said: &mut String, text: &str) -> Result<(), AllocError> {
    for line in text.split(" | ") {
        let whole = meant(alloc, line)?;
        let whole = whole.as_str();
        match whole.strip_suffix('\\') {
            Some(begun) => said.push_str(begun)?,
            None => {
                said.push_str(whole)?;
                said.push_str("\n")?;
            }
        }
    }
    Ok(())
}

impl<'a> Row<'a> {
    /// The exit status, 255 where none is given.
    pub(super) fn status(&self) -> u8 {
        cut(self.own, " ").0.parse().unwrap_or(255)
    }

    /// What is shown of the row.
    pub(super) fn shown(&self) -> &'a str {
        cut(cut(self.own, "\n").0, " ").1
    }

    /// The line of the words.
    pub(super) fn line(&self) -> &'a str {
        let mut lines = self.own.lines().chain(self.common.lines());
        lines
            .find_map(|line| behind(line, "$"))
            .unwrap_or(self.shown())
    }

    /// The texts of all lines with this mark.
    ///
    /// # Errors
    ///
    /// `AllocError` where memory runs out.
    pub(super) fn texts(&self, alloc: Global, mark: &str) -> Result<Vec<&'a str>, AllocError> {
        let mut texts = Vec::new(alloc);
        for line in self.common.lines().chain(self.own.lines()) {
            if let Some(text) = behind(line, mark) {
                texts.push(text)?;
            }
        }
        Ok(texts)
    }

    /// The files that the row and the lines before the first one give.
    ///
    /// # Errors
    ///
    /// `AllocError` where memory runs out.
    pub(super) fn files(&self, alloc: Global) -> Result<Vec<MemFile>, AllocError> {
        let mut files = Vec::new(alloc);
        for text in self.texts(alloc, ":")?.as_slice() {
            put_files(alloc, &mut files, text)?;
        }
        Ok(files)
    }

    // What is said on the stream of this mark.
    fn said(&self, alloc: Global, mark: &str) -> Result<String, AllocError> {
        let mut said = String::new(alloc);
        for text in self.texts(alloc, mark)?.as_slice() {
            push_lines(alloc, &mut said, text)?;
        }
        Ok(said)
    }

    /// Whether just this status, output and error output are those of the row.
    ///
    /// # Errors
    ///
    /// `AllocError` where memory runs out.
    pub(super) fn is_said(
        &self,
        alloc: Global,
        said: (u8, &[u8], &[u8]),
    ) -> Result<bool, AllocError> {
        let (status, out, err) = said;
        Ok(
            status == self.status()
                && out == self.said(alloc, ">")?.as_bytes()
                && err == self.said(alloc, "!")?.as_bytes(),
        )
    }
}
