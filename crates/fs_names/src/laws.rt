//! Laws of the texts, as the contracts of functions that do nothing.
ghost use Rattle.fs_names.specs.Laws.{OidTextsAreRead, OidsReadAreSpelled, OidTextsPrint, OidOrderIsByTexts, CollTextsAreRead, CollsReadAreSpelled, CollTextsPrint};

/// Each object has one text, and no two objects have the same.
pub fn oid_texts_law()
    ensures read { OidTextsAreRead }
    ensures spelled { OidsReadAreSpelled }
    ensures print { OidTextsPrint }
{}

/// Two objects tie only where they are one.
pub fn oid_order_law()
    ensures { OidOrderIsByTexts }
{}

/// Each collection has one text, and no two collections have the same.
pub fn coll_texts_law()
    ensures read { CollTextsAreRead }
    ensures spelled { CollsReadAreSpelled }
    ensures print { CollTextsPrint }
{}
