//! Where a TOML value ends, and on which line each item of an array begins.

/// What the next character of a value belongs to.
#[derive(Clone, Copy)]
enum Within {
    /// The value itself, outside texts and comments.
    Value,
    /// A text or an empty text: one quotation mark was read.
    Quote(char),
    /// An empty text, or one of many lines: two quotation marks were read.
    Quotes(char),
    /// A text of one line.
    Text(char),
    /// An escape in a text of one line.
    Escape,
    /// A text of many lines, after so many quotation marks in a row.
    Long(char, u8),
    /// An escape in a text of many lines.
    LongEscape,
    /// A comment, up to the end of its line.
    Comment,
}

/// Follows a value through its lines. Brackets and braces count alike.
#[derive(Drop)]
pub(crate) struct Scan {
    within: Within,
    depth: u64,
    /// How many items of the outer array have begun.
    items: u64,
    /// Whether the next item of the outer array is still to begin.
    is_item_next: bool,
}

impl Scan {
    /// Starts at the beginning of a value.
    pub(crate) fn new() -> Scan {
        Scan {
            within: Within::Value,
            depth: 0,
            items: 0,
            is_item_next: false,
        }
    }

    /// Returns whether the value goes on in the next line.
    pub(crate) fn is_open(&self) -> bool {
        self.depth > 0 || matches!(self.within, Within::Long(..))
    }

    /// Returns how many items of the outer array have begun so far.
    pub(crate) fn items(&self) -> u64 {
        self.items
    }

    /// Counts an item that begins here.
    fn begin_item(&mut self) {
        if self.depth == 1 && self.is_item_next {
            self.items = self.items.saturating_add(1);
            self.is_item_next = false;
        }
    }

    /// Reads an opening bracket or brace.
    fn open(&mut self) {
        self.begin_item();
        if self.depth == 0 {
            self.is_item_next = true;
        }
        self.depth = self.depth.saturating_add(1);
    }

    /// Reads a character outside texts and comments.
    fn take_plain(&mut self, c: char) {
        match c {
            '[' | '{' => self.open(),
            ']' | '}' => self.depth = self.depth.saturating_sub(1),
            ',' => self.is_item_next = self.is_item_next || self.depth == 1,
            '#' => self.within = Within::Comment,
            '"' | '\'' => {
                self.begin_item();
                self.within = Within::Quote(c);
            }
            c if c.is_whitespace() => {}
            _ => self.begin_item(),
        }
    }

    /// Reads a character of a text of one line.
    fn take_text(&mut self, quote: char, c: char) {
        self.within = if c == quote {
            Within::Value
        } else if c == '\\' && quote == '"' {
            Within::Escape
        } else {
            Within::Text(quote)
        };
    }

    /// Reads a character of a text of many lines, after so many quotation marks in a row.
    fn take_long(&mut self, quote: char, run: u8, c: char) {
        self.within = if c == quote && run >= 2 {
            Within::Value
        } else if c == quote {
            Within::Long(quote, run.saturating_add(1))
        } else if c == '\\' && quote == '"' {
            Within::LongEscape
        } else {
            Within::Long(quote, 0)
        };
    }

    /// Reads one character of the value.
    fn take(&mut self, c: char) {
        match self.within {
            Within::Value => self.take_plain(c),
            Within::Quote(quote) if c == quote => self.within = Within::Quotes(quote),
            Within::Quote(quote) | Within::Text(quote) => self.take_text(quote, c),
            Within::Quotes(quote) if c == quote => self.within = Within::Long(quote, 0),
            Within::Quotes(_) => {
                self.within = Within::Value;
                self.take_plain(c);
            }
            Within::Escape => self.within = Within::Text('"'),
            Within::Long(quote, run) => self.take_long(quote, run, c),
            Within::LongEscape => self.within = Within::Long('"', 0),
            Within::Comment => {}
        }
    }

    /// Reads the rest of a line and its end.
    pub(crate) fn take_line(&mut self, line: &str) {
        for c in line.chars() {
            self.take(c);
        }
        self.within = match self.within {
            Within::Long(quote, _) => Within::Long(quote, 0),
            Within::LongEscape => Within::Long('"', 0),
            _ => Within::Value,
        };
    }
}
