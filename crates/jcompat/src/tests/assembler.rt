//! A small assembler of class files without code (JVMS 4.1), whose texts are words.
use jc_base::mem_file::MemFile;
use jc_base::text::Text;
use std::alloc::{AllocError, Global};

const OBJECT: &str = "java/lang/Object";

/// The text before the mark, and the text behind it, or the text and nothing.
pub(super) fn cut<'a>(text: &'a str, mark: &str) -> (&'a str, &'a str) {
    text.split_once(mark).unwrap_or((text, ""))
}

// A number of hexadecimal digits.
fn hex(digits: &str) -> u16 {
    u16::from_str_radix(digits, 16).unwrap_or(0)
}

// The value of a word `KEY=VALUE` of this key. `init` is a method, a public constructor without
// parameters.
fn value_of<'a>(word: &'a str, key: &str) -> Option<&'a str> {
    let (found, value) = cut(word, "=");
    if found == key {
        Some(value)
    } else if found == "init" && key == "method" {
        Some("1:<init>:()V")
    } else {
        None
    }
}

/// The values of the words of this key.
///
/// # Errors
///
/// `AllocError` where memory runs out.
pub(super) fn values<'a>(
    alloc: Global,
    words: &'a str,
    key: &str,
) -> Result<Vec<&'a str>, AllocError> {
    let mut values = Vec::new(alloc);
    for word in words.split_whitespace() {
        if let Some(value) = value_of(word, key) {
            values.push(value)?;
        }
    }
    Ok(values)
}

/// The first of them, or what stands for it where there is none.
pub(super) fn value_or<'a>(words: &'a str, key: &str, other: &'a str) -> &'a str {
    for word in words.split_whitespace() {
        if let Some(value) = value_of(word, key) {
            return value;
        }
    }
    other
}

/// The number of this key, 0 where there is none.
pub(super) fn number(words: &str, key: &str) -> u64 {
    value_or(words, key, "").parse().unwrap_or(0)
}

const KNOWN: &str =
    "init method field implements permits nest_member nest_host flags extends sealed signature";

// Whether the word says something of a class.
fn is_known(word: &str) -> bool {
    let (key, _) = cut(word, "=");
    KNOWN.split_whitespace().any(|known| known == key)
}

// How many there are.
fn count<T>(items: &[T]) -> u16 {
    items.len().min(65_535) as u16
}

/// A class file that is made: its constant pool (JVMS 4.4), the index of the pool's next entry, and what
/// stands behind the pool.
#[derive(Drop)]
struct ClassFile {
    pool: Vec<u8>,
    next: u16,
    body: Vec<u8>,
}

impl ClassFile {
    fn put(&mut self, number: u16) -> Result<(), AllocError> {
        self.body.extend_from_slice(&number.to_be_bytes())
    }

    // Adds an entry of this tag, a number and bytes, and gives its index.
    fn entry(&mut self, tag: u8, number: u16, bytes: &[u8]) -> Result<u16, AllocError> {
        self.pool.push(tag)?;
        self.pool.extend_from_slice(&number.to_be_bytes())?;
        self.pool.extend_from_slice(bytes)?;
        let index = self.next;
        self.next = index.saturating_add(1);
        Ok(index)
    }

    fn text(&mut self, text: &str) -> Result<u16, AllocError> {
        self.entry(1, count(text.as_bytes()), text.as_bytes())
    }

    fn put_text(&mut self, text: &str) -> Result<(), AllocError> {
        let index = self.text(text)?;
        self.put(index)
    }

    // Puts the index of a class, 0 for no name.
    fn put_class(&mut self, name: &str) -> Result<(), AllocError> {
        if name.is_empty() {
            return self.put(0);
        }
        let text = self.text(name)?;
        let index = self.entry(7, text, &[])?;
        self.put(index)
    }

    // Puts the count and the indices of classes.
    fn put_classes(&mut self, names: &[&str]) -> Result<(), AllocError> {
        self.put(count(names))?;
        for name in names {
            self.put_class(name)?;
        }
        Ok(())
    }

    // Begins an attribute of so many bytes (JVMS 4.7).
    fn put_attribute(&mut self, name: &str, len: u16) -> Result<(), AllocError> {
        self.put_text(name)?;
        self.put(0)?;
        self.put(len)
    }

    // Puts the attribute of a value: a constant value of digits, a signature of another text, none of none.
    fn put_value(&mut self, value: &str) -> Result<(), AllocError> {
        if value.is_empty() {
            return Ok(());
        }
        match value.parse::<u16>() {
            Ok(number) => {
                self.put_attribute("ConstantValue", 2)?;
                let index = self.entry(3, 0, &number.to_be_bytes())?;
                self.put(index)
            }
            Err(_) => {
                self.put_attribute("Signature", 2)?;
                self.put_text(value)
            }
        }
    }

    // Puts the count of the members that the words have of this key, and each: `FLAGS:NAME:DESCRIPTOR` or,
    // with a constant value or a signature, `FLAGS:NAME:DESCRIPTOR:VALUE`.
    fn put_members(&mut self, alloc: Global, words: &str, key: &str) -> Result<(), AllocError> {
        let members = values(alloc, words, key)?;
        self.put(count(members.as_slice()))?;
        for member in members.as_slice() {
            let (flags, rest) = cut(member, ":");
            let (name, typed) = cut(rest, ":");
            let (descriptor, value) = cut(typed, ":");
            self.put(hex(flags))?;
            self.put_text(name)?;
            self.put_text(descriptor)?;
            self.put(u16::from(!value.is_empty()))?;
            self.put_value(value)?;
        }
        Ok(())
    }

    // Puts an attribute that lists classes, where there are any.
    fn put_list(&mut self, name: &str, names: &[&str]) -> Result<(), AllocError> {
        if names.is_empty() {
            return Ok(());
        }
        let len = count(names).saturating_mul(2).saturating_add(2);
        self.put_attribute(name, len)?;
        self.put_classes(names)
    }

    // Puts the attributes of a class: its nest host, its nest members, the names that it permits, and its
    // signature.
    fn put_attributes(&mut self, alloc: Global, words: &str) -> Result<(), AllocError> {
        let host = value_or(words, "nest_host", "");
        let members = values(alloc, words, "nest_member")?;
        let permits = values(alloc, words, "permits")?;
        let signature = value_or(words, "signature", "");
        let nest = u16::from(!host.is_empty()).saturating_add(u16::from(!members.is_empty()));
        let lists = nest.saturating_add(u16::from(!permits.is_empty()));
        self.put(lists.saturating_add(u16::from(!signature.is_empty())))?;
        if !host.is_empty() {
            self.put_attribute("NestHost", 2)?;
            self.put_class(host)?;
        }
        self.put_list("NestMembers", members.as_slice())?;
        self.put_list("PermittedSubclasses", permits.as_slice())?;
        self.put_value(signature)
    }

    // Its bytes, of a version.
    fn bytes(&self, alloc: Global, major: u16) -> Result<Vec<u8>, AllocError> {
        let mut bytes = Vec::from_slice(alloc, b"\xca\xfe\xba\xbe\0\0")?;
        bytes.extend_from_slice(&major.to_be_bytes())?;
        bytes.extend_from_slice(&self.next.to_be_bytes())?;
        bytes.extend_from_slice(self.pool.as_slice())?;
        bytes.extend_from_slice(self.body.as_slice())?;
        Ok(bytes)
    }
}

// The class file of a text `NAME WORDS..`: a public class of this name, without a constructor, and
// what the words say of it, as `init`, `flags=21`, `method=1:m:()V`, `sealed` for the version that has
// seals, and so on. No bytes, where a word says nothing of a class.
fn class_bytes(alloc: Global, text: &str) -> Result<Vec<u8>, AllocError> {
    let (name, words) = cut(text, " ");
    if !words.split_whitespace().all(is_known) {
        return Ok(Vec::new(alloc));
    }
    let mut file = ClassFile {
        pool: Vec::new(alloc),
        next: 1,
        body: Vec::new(alloc),
    };
    file.put(hex(value_or(words, "flags", "21")))?;
    file.put_class(name)?;
    file.put_class(value_or(words, "extends", if name == OBJECT { "" } else { OBJECT }))?;
    file.put_classes(values(alloc, words, "implements")?.as_slice())?;
    file.put_members(alloc, words, "field")?;
    file.put_members(alloc, words, "method")?;
    file.put_attributes(alloc, words)?;
    let is_sealed = value_or(words, "sealed", "no").is_empty();
    file.bytes(alloc, if is_sealed { 61 } else { 52 })
}

/// A file of a tree.
///
/// # Errors
///
/// `AllocError` where memory runs out.
pub(super) fn file(
    alloc: Global,
    root: &str,
    path: &str,
    bytes: Vec<u8>,
) -> Result<MemFile, AllocError> {
    let root = Text::from_str(alloc, root)?;
    let path = Text::from_str(alloc, path)?;
    Ok(MemFile { root, path, bytes })
}

// The bytes of these words of hexadecimal digits.
fn bytes_of(alloc: Global, words: &str) -> Result<Vec<u8>, AllocError> {
    let mut bytes = Vec::new(alloc);
    for digits in words.split_whitespace() {
        bytes.push(u8::from_str_radix(digits, 16).unwrap_or(0))?;
    }
    Ok(bytes)
}

/// The file under a root of a text: `NAME WORDS..` of a class at its place, `at PATH NAME WORDS..` of one
/// at another, or `bytes PATH HEX..`. It is empty where a word says nothing of a class.
///
/// # Errors
///
/// `AllocError` where memory runs out.
pub(super) fn file_of(alloc: Global, root: &str, text: &str) -> Result<MemFile, AllocError> {
    let (name, words) = cut(text, " ");
    let (path, content) = cut(words, " ");
    match name {
        "bytes" => file(alloc, root, path, bytes_of(alloc, content)?),
        "at" => file(alloc, root, path, class_bytes(alloc, content)?),
        _ => {
            let own_path = format!(in alloc; "{name}.class")?;
            file(alloc, root, own_path.as_str(), class_bytes(alloc, text)?)
        }
    }
}
