// One case.
use std::alloc::{AllocError, Global};
use sv_source::{Entries, Entry, MemoryFiles, MemorySink, Text};

/// The room of a sink in bytes where a case doesn't say it.
const ROOM: u64 = 1 << 20;

/// A sink in memory: the puts that fail, counted from 1, and its room in bytes.
#[derive(Debug, Drop)]
pub struct Device {
    pub fails: Vec<u64>,
    pub room: u64,
}

impl Device {
    /// A sink of which no put fails.
    fn new(alloc: Global) -> Device {
        Device {
            fails: Vec::new(alloc),
            room: ROOM,
        }
    }

    /// The sink, without a byte.
    pub fn sink(self, alloc: Global) -> Result<MemorySink, AllocError> {
        MemorySink::new(alloc, self.room, self.fails)
    }
}

/// What one case is run on.
#[derive(Debug, Drop)]
pub struct Case {
    pub name: String,
    pub words: Vec<String>,
    pub files: Vec<Entry>,
    /// The loads that fail, counted from 1.
    pub failing_loads: Vec<u64>,
    pub out: Device,
    pub err: Device,
}

impl Case {
    /// A case without words and files.
    pub fn named(alloc: Global, name: &str) -> Result<Case, AllocError> {
        Ok(Case {
            name: String::from_str(alloc, name)?,
            words: Vec::new(alloc),
            files: Vec::new(alloc),
            failing_loads: Vec::new(alloc),
            out: Device::new(alloc),
            err: Device::new(alloc),
        })
    }

    /// Takes one line, and answers whether it is of the form.
    pub fn add(&mut self, alloc: Global, line: &str) -> Result<bool, AllocError> {
        if line.is_empty() || line.starts_with('#') {
            return Ok(true);
        }
        if let Some(text) = line.strip_prefix('|') {
            return Ok(self.add_bytes(text.as_bytes())? && self.add_bytes(b"\n")?);
        }
        if let Some(text) = line.strip_prefix('\\') {
            return self.add_bytes(text.as_bytes());
        }
        match line.split_once(' ') {
            Some((key, rest)) => self.add_entry(alloc, key, rest),
            None => Ok(false),
        }
    }

    /// Takes a line that begins with a key.
    fn add_entry(&mut self, alloc: Global, key: &str, rest: &str) -> Result<bool, AllocError> {
        match key {
            "word" => self.add_word(alloc, rest),
            "words" => self.add_words(alloc, rest),
            "more" => self.add_line(rest),
            "file" => self.add_file(alloc, rest),
            "byte" => self.add_numbers(rest),
            "repeat" => self.add_often(rest),
            "fill" => self.add_filling(rest),
            "fails" => self.add_faults(rest),
            "room" => Ok(self.set_room(rest)),
            _ => Ok(false),
        }
    }

    fn add_word(&mut self, alloc: Global, word: &str) -> Result<bool, AllocError> {
        self.words.push(String::from_str(alloc, word)?)?;
        Ok(true)
    }

    fn add_words(&mut self, alloc: Global, words: &str) -> Result<bool, AllocError> {
        for word in words.split(' ') {
            self.words.push(String::from_str(alloc, word)?)?;
        }
        Ok(true)
    }

    /// Adds a newline and this text to the last word.
    fn add_line(&mut self, rest: &str) -> Result<bool, AllocError> {
        match self.words.last_mut() {
            Some(word) => {
                word.push('\n')?;
                word.push_str(rest)?;
                Ok(true)
            }
            None => Ok(false),
        }
    }

    fn add_file(&mut self, alloc: Global, path: &str) -> Result<bool, AllocError> {
        self.files.push(Entry {
            path: Text::from_bytes(alloc, path.as_bytes())?,
            bytes: Text::new(alloc),
        })?;
        Ok(true)
    }

    /// Adds bytes to the last file. There is none before the first `file`.
    fn add_bytes(&mut self, bytes: &[u8]) -> Result<bool, AllocError> {
        match self.files.last_mut() {
            Some(file) => {
                file.bytes.push_bytes(bytes)?;
                Ok(true)
            }
            None => Ok(false),
        }
    }

    fn add_numbers(&mut self, numbers: &str) -> Result<bool, AllocError> {
        for number in numbers.split(' ') {
            let Ok(byte) = number.parse::<u8>() else {
                return Ok(false);
            };
            if !self.add_bytes(&[byte])? {
                return Ok(false);
            }
        }
        Ok(true)
    }

    /// `COUNT TEXT`: the text so often.
    fn add_often(&mut self, rest: &str) -> Result<bool, AllocError> {
        let Some((count, text)) = rest.split_once(' ') else {
            return Ok(false);
        };
        let Ok(count) = count.parse::<u32>() else {
            return Ok(false);
        };
        for _ in 0..count {
            if !self.add_bytes(text.as_bytes())? {
                return Ok(false);
            }
        }
        Ok(true)
    }

    /// `COUNT N`: the byte with this number so often.
    fn add_filling(&mut self, rest: &str) -> Result<bool, AllocError> {
        let Some((count, number)) = rest.split_once(' ') else {
            return Ok(false);
        };
        let (Ok(count), Ok(byte)) = (count.parse::<u32>(), number.parse::<u8>()) else {
            return Ok(false);
        };
        for _ in 0..count {
            if !self.add_bytes(&[byte])? {
                return Ok(false);
            }
        }
        Ok(true)
    }

    fn add_faults(&mut self, rest: &str) -> Result<bool, AllocError> {
        let Some((device, numbers)) = rest.split_once(' ') else {
            return Ok(false);
        };
        let fails = match device {
            "files" => &mut self.failing_loads,
            "out" => &mut self.out.fails,
            "err" => &mut self.err.fails,
            _ => return Ok(false),
        };
        for number in numbers.split(' ') {
            let Ok(number) = number.parse::<u64>() else {
                return Ok(false);
            };
            fails.push(number)?;
        }
        Ok(true)
    }

    fn set_room(&mut self, rest: &str) -> bool {
        let Some((device, number)) = rest.split_once(' ') else {
            return false;
        };
        let Ok(room) = number.parse::<u64>() else {
            return false;
        };
        match device {
            "out" => self.out.room = room,
            "err" => self.err.room = room,
            _ => return false,
        }
        true
    }
}

/// The files in memory of a case.
pub fn files_of(files: Vec<Entry>, failing_loads: Vec<u64>) -> MemoryFiles {
    MemoryFiles::new(Entries::from_vec(files), failing_loads)
}
