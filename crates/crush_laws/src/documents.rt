//! The law that the texts of maps are exactly the lawful documents.

ghost use Rattle.crush_laws.specs.MapOrFlaw.{TextsAreLawfulDocuments};
ghost use Rattle.crush_laws.specs.Example.{ExampleIsRight};

/// The law that the texts of maps are exactly the lawful documents.
///
/// - `law`: bytes are the text of a map if and only if their words spell a lawful document by the
/// grammar. This document has the same setting (types, tunables and rules), the same table (devices
/// and buckets) and the same number of adjusted weights as the text. A weight that is written for a
/// bucket is *adjusted* if it isn't the sum of the weights of the bucket's items.
/// - `example`: for one example, whose document, setting and table were worked out by hand, the
/// definitions give exactly these results.
pub fn a_text_is_a_document()
    ensures law { TextsAreLawfulDocuments }
    ensures example { ExampleIsRight }
{}
