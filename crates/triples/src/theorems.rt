//! What is proved of both kinds of store.
ghost use Rattle.triples.specs.Theorems.{SameTriplesSameMeaning};

/// A property store and a row store with the same top and the same triples mean the same.
pub fn same_triples_same_meaning()
    ensures { SameTriplesSameMeaning }
{}
