//! The tables of a rule file: which keys they may have, and what stands there.

use crate::near::is_near;

/// A table of a rule file.
#[derive(Clone, Copy)]
pub(crate) enum Owner {
    File,
    Group,
    Recording,
    Alerting,
}

/// A key that a table may have.
#[derive(Clone, Copy)]
pub(crate) struct Key {
    pub(crate) name: &'static str,
    pub(crate) kind: Kind,
    pub(crate) is_needed: bool,
}

/// What stands at a key.
#[derive(Clone, Copy)]
pub(crate) enum Kind {
    Text,
    // An array of tables, with the head of one of them.
    Tables(&'static str),
    // A duration from the least up to 30 days.
    Seconds(u64),
    // A whole number up to the most.
    Number(u64),
    // A table of texts.
    Texts,
}

const FILE_KEYS: &[Key] = &[Key {
    name: "groups",
    kind: Kind::Tables("[[groups]]"),
    is_needed: true,
}];

const GROUP_KEYS: &[Key] = &[
    Key {
        name: "name",
        kind: Kind::Text,
        is_needed: true,
    },
    Key {
        name: "interval",
        kind: Kind::Seconds(1),
        is_needed: false,
    },
    Key {
        name: "limit",
        kind: Kind::Number(1_000_000),
        is_needed: false,
    },
    Key {
        name: "rules",
        kind: Kind::Tables("[[groups.rules]]"),
        is_needed: true,
    },
];

const EXPR: Key = Key {
    name: "expr",
    kind: Kind::Text,
    is_needed: true,
};

const LABELS: Key = Key {
    name: "labels",
    kind: Kind::Texts,
    is_needed: false,
};

const RECORDING_KEYS: &[Key] = &[
    Key {
        name: "record",
        kind: Kind::Text,
        is_needed: true,
    },
    EXPR,
    LABELS,
];

const ALERTING_KEYS: &[Key] = &[
    Key {
        name: "alert",
        kind: Kind::Text,
        is_needed: true,
    },
    EXPR,
    Key {
        name: "for",
        kind: Kind::Seconds(0),
        is_needed: false,
    },
    LABELS,
    Key {
        name: "annotations",
        kind: Kind::Texts,
        is_needed: false,
    },
];

impl Owner {
    /// The keys that it may have.
    pub(crate) fn keys(self) -> &'static [Key] {
        match self {
            Owner::File => FILE_KEYS,
            Owner::Group => GROUP_KEYS,
            Owner::Recording => RECORDING_KEYS,
            Owner::Alerting => ALERTING_KEYS,
        }
    }

    /// What it is called.
    pub(crate) fn as_str(self) -> &'static str {
        match self {
            Owner::File => "the file",
            Owner::Group => "a group",
            Owner::Recording => "a recording rule",
            Owner::Alerting => "an alerting rule",
        }
    }

    /// Whether it may have the key.
    pub(crate) fn has(self, name: &str) -> bool {
        self.keys().iter().any(|key| key.name == name)
    }

    /// What is reported of a key that has to be there and is not. What is neither rule counts as an alerting one.
    pub(crate) fn missing(self, key: &Key) -> &'static str {
        match self {
            Owner::Alerting if key.name == "alert" => "record or alert",
            _ => key.name,
        }
    }

    /// What is lawful near a key that it may not have, if something is: where all is said, also in the place of other words.
    pub(crate) fn near(self, name: &str, is_full: bool) -> Option<&'static str> {
        match (self, name) {
            (Owner::Recording, "for" | "annotations") => {
                Some("an alerting rule, with alert in place of record")
            }
            (Owner::Recording, "alert") => Some("two rules"),
            (Owner::Alerting, _) if name.eq_ignore_ascii_case("record") => Some("record"),
            _ => match near_key(self.keys(), name) {
                None if is_full => self.meant_by(name),
                near => near,
            },
        }
    }

    // What is meant by a key that is written wrongly, or that other rulers have.
    fn meant_by(self, name: &str) -> Option<&'static str> {
        for key in self.keys() {
            if is_near(key.name, name) || (name.len() > 2 && key.name.starts_with(name)) {
                return Some(key.name);
            }
        }
        match (self, name) {
            (Owner::Recording | Owner::Alerting, "query" | "expression") => Some("expr"),
            (Owner::Alerting, _) if is_near("record", name) => Some("record"),
            (Owner::Alerting, "duration" | "hold") => Some("for"),
            (Owner::Alerting, "severity" | "team" | "priority") => {
                Some("a key of labels, as labels = { severity = \"page\" }")
            }
            (Owner::Alerting, "summary" | "description" | "runbook_url") => {
                Some("a key of annotations, as annotations = { summary = \"errors\" }")
            }
            (Owner::Alerting, "keep_firing_for") => {
                Some("nothing: an alert is resolved at the first evaluation without its series")
            }
            (Owner::File, "rules" | "name" | "interval" | "limit") => {
                Some("a key of a group, below [[groups]]")
            }
            (Owner::Group, "alert" | "record" | "expr" | "for" | "labels" | "annotations") => {
                Some("a key of a rule, below [[groups.rules]]")
            }
            _ => None,
        }
    }
}

// The key that is the name in another case, or with an s more or less.
fn near_key(keys: &[Key], name: &str) -> Option<&'static str> {
    for key in keys {
        if is_variant(key.name, name) {
            return Some(key.name);
        }
    }
    None
}

fn is_variant(key: &str, name: &str) -> bool {
    key.eq_ignore_ascii_case(name) || is_plural(key, name) || is_plural(name, key)
}

// Whether the one is the other with an s after it.
fn is_plural(many: &str, one: &str) -> bool {
    match many.strip_suffix('s') {
        Some(front) => front.eq_ignore_ascii_case(one),
        None => false,
    }
}
