//! The values of a command line that the report on standard error needs.

ghost use Rattle.std.specs.Prelude.{◌≡◌, [], Bool, unwrap_or};
ghost use Rattle.crush_options.specs.OutputFlags.{name_text, flags_by};
ghost use Rattle.crush_input.specs.Words.{no_words, words_data, words_of};

use crush_options::{Options, OutputSpec};

/// The values of a command line that the report on standard error needs: whether `--explain` is
/// given, and the names after `--under`, `--down-to` and `--class`.
#[derive(Clone, Copy, Debug)]
pub struct Words<'a> {
    /// Whether a reason is printed after the first line on standard error (`--explain`).
    pub explain: bool,
    /// The name after `--under`. It is empty if `--under` isn't given.
    pub under: &'a str,
    /// The name after `--down-to`. It is empty if `--down-to` isn't given.
    pub down_to: &'a str,
    /// The name after `--class`. It is empty if `--class` isn't given.
    pub class: &'a str,
}

impl<'a> Words<'a> {
    /// Returns the values for a report without reasons and without names.
    pub fn none() -> Words<'a>
        ensures { words_data result ≡ no_words }
    {
        Words {
            explain: false,
            under: "",
            down_to: "",
            class: "",
        }
    }

    /// Returns the values for a command line with these options.
    pub fn of(options: &'a Options) -> Words<'a>
        ensures { words_data result ≡ words_of options.now }
    {
        Words {
            explain: options.mode.explain,
            under: under_of(&options.output_spec),
            down_to: down_to_of(&options.output_spec),
            class: class_of(&options.output_spec),
        }
    }
}

fn name_or_empty(name: &Option<String>) -> &str
    ensures { result.now ≡ unwrap_or (name_text name.now) [] }
{
    match name {
        Some(name) => name.as_str(),
        None => "",
    }
}

fn under_of(output_spec: &OutputSpec) -> &str
    ensures { (json exact : Bool) → result.now
        ≡ unwrap_or (flags_by json exact output_spec.now).under [] }
{
    match output_spec {
        OutputSpec::Tree(part) => name_or_empty(&part.under),
        OutputSpec::Since(since) => name_or_empty(&since.under),
        OutputSpec::To(target) => name_or_empty(&target.under),
        OutputSpec::Changes(tree) => name_or_empty(&tree.part.under),
        OutputSpec::Map | OutputSpec::AsCeph => "",
    }
}

fn down_to_of(output_spec: &OutputSpec) -> &str
    ensures { (json exact : Bool) → result.now
        ≡ unwrap_or (flags_by json exact output_spec.now).down_to [] }
{
    match output_spec {
        OutputSpec::Tree(part) => name_or_empty(&part.down_to),
        OutputSpec::Changes(tree) => name_or_empty(&tree.part.down_to),
        _ => "",
    }
}

fn class_of(output_spec: &OutputSpec) -> &str
    ensures { (json exact : Bool) → result.now
        ≡ unwrap_or (flags_by json exact output_spec.now).class [] }
{
    match output_spec {
        OutputSpec::Tree(part) => name_or_empty(&part.class),
        OutputSpec::Changes(tree) => name_or_empty(&tree.part.class),
        _ => "",
    }
}
