//! What is stored: the looks of a second session at each cube, and the lines of the first session.
use ice_path::read_path;
use std::alloc::{AllocError, Global};
use std::io;
use tree_spec::Path;

/// The looks at one cube: `online` and `mount` of its path, and then these lines.
#[derive(Drop)]
pub struct Looks {
    pub path: Path,
    pub lines: Vec<String>,
}

impl Looks {
    /// How many replies there are to the looks at this cube.
    pub fn replies(&self) -> usize {
        self.lines.len().saturating_add(2)
    }

    /// The cube's path.
    pub fn name(&self) -> &str {
        str::from_utf8(self.path.text()).unwrap_or("?")
    }
}

/// The two sections of the input.
#[derive(Drop)]
pub struct Stored {
    /// The looks at each cube, in the order of the lines.
    pub looks: Vec<Looks>,
    /// The script of the second session.
    pub looking: String,
    /// The lines of the first session, with the bytes of their writes written out.
    pub lines: Vec<String>,
}

impl Stored {
    fn new(alloc: Global) -> Stored {
        Stored {
            looks: Vec::new(alloc),
            looking: String::new(alloc),
            lines: Vec::new(alloc),
        }
    }

    /// Adds a look. `online` begins the looks at a cube, and `mount` comes next.
    fn add_look(&mut self, alloc: Global, line: &str) -> io::Result<()> {
        self.looking.push_str(line)?;
        self.looking.push_str("\n")?;
        if let Some(path) = line.strip_prefix("online ") {
            return self.add_cube(alloc, path);
        }
        if line.starts_with("mount ") {
            return Ok(());
        }
        match self.looks.last_mut() {
            Some(looks) => looks.lines.push(String::from_str(alloc, line)?)?,
            None => return Err(io::ErrorKind::InvalidInput.into()),
        }
        Ok(())
    }

    fn add_cube(&mut self, alloc: Global, path: &str) -> io::Result<()> {
        let Ok(path) = read_path(path.as_bytes()) else {
            return Err(io::ErrorKind::InvalidInput.into());
        };
        self.looks.push(Looks {
            path,
            lines: Vec::new(alloc),
        })?;
        Ok(())
    }

    /// Adds a line of the session, with a token `*N` at its end written out.
    fn add_line(&mut self, alloc: Global, line: &str) -> io::Result<()> {
        let number = self.lines.len().saturating_add(1);
        let Some((front, count)) = line.split_once(" *") else {
            self.lines.push(String::from_str(alloc, line)?)?;
            return Ok(());
        };
        let Ok(count) = count.parse::<u16>() else {
            return Err(io::ErrorKind::InvalidInput.into());
        };
        let digits = digits(alloc, count, number)?;
        self.lines.push(format!(in alloc; "{front} {digits}")?)?;
        Ok(())
    }

    /// The script of the first session.
    pub fn script(&self, alloc: Global) -> Result<String, AllocError> {
        let mut script = String::new(alloc);
        for line in &self.lines {
            script.push_str(line.as_str())?;
            script.push_str("\n")?;
        }
        Ok(script)
    }
}

/// The hexadecimal digits of so many bytes that differ from block to block and from line to line.
fn digits(alloc: Global, count: u16, number: usize) -> Result<String, AllocError> {
    let start = (number.wrapping_mul(5) % 256) as u8;
    let mut bytes = vec![in alloc; 0u8; usize::from(count)]?;
    for (j, byte) in bytes.iter_mut().enumerate() {
        let part = ((j / 256 % 256) as u8).wrapping_mul(3);
        *byte = ((j % 256) as u8)
            .wrapping_mul(7)
            .wrapping_add(part)
            .wrapping_add(start);
    }
    hex::encode(alloc, bytes.as_slice())
}

/// What a text stores: after a heading the looks, and after a second one the session.
pub fn stored_in(alloc: Global, text: &str) -> io::Result<Stored> {
    let mut stored = Stored::new(alloc);
    let mut headings: u32 = 0;
    for line in text.lines() {
        if line.starts_with('#') {
            headings = headings.saturating_add(1);
        } else if headings < 2 {
            stored.add_look(alloc, line)?;
        } else {
            stored.add_line(alloc, line)?;
        }
    }
    Ok(stored)
}
