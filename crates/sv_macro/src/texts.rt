use sv_source::{Items, Text};

/// A list of texts.
pub type Texts = Items<Text>;
