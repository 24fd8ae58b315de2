//! What names tell. Each function has nothing to do: its contract is the law.
ghost use Rattle.pb_names.specs.Named.{NamesAreApart, PrefixIsNoName, PrefixTellsMarkers, PrefixTellsShared, PrefixesAreApart};
ghost use Rattle.pb_names.specs.NumberedFile.{FilesAreNumbered, KindsAreApart};
ghost use Rattle.pb_names.specs.Ranges.{TestsTellMarkerNumbers, TestsTellNames, TestsTellObjects, TestsTellStores};

/// Two things with one name are one thing: of one kind, with equal numbers and ids.
pub fn names_are_apart()
    ensures { NamesAreApart }
{}

/// The names that begin with an object's marker prefix are exactly those of its own markers.
pub fn prefix_tells_markers()
    ensures { PrefixTellsMarkers }
{}

/// Two objects with one marker prefix are one object.
pub fn prefixes_are_apart()
    ensures { PrefixesAreApart }
{}

/// A marker prefix is no name of anything.
pub fn prefix_is_no_name()
    ensures { PrefixIsNoName }
{}

/// The names that begin with `obj/` are exactly those of shared objects and their markers.
pub fn prefix_tells_shared()
    ensures { PrefixTellsShared }
{}

/// The names that `file` spells are names of numbered files, each of its kind.
pub fn files_are_numbered()
    ensures { FilesAreNumbered }
{}

/// No name is that of two kinds of numbered files.
pub fn kinds_are_apart()
    ensures { KindsAreApart }
{}

/// A definition's test is true of exactly the stores of the family.
pub fn tests_tell_stores()
    ensures { TestsTellStores }
{}

/// The same of the objects that such a store can have made.
pub fn tests_tell_objects()
    ensures { TestsTellObjects }
{}

/// The same of the numbers that markers tell.
pub fn tests_tell_marker_numbers()
    ensures { TestsTellMarkerNumbers }
{}

/// The same of the names that scripts give.
pub fn tests_tell_names()
    ensures { TestsTellNames }
{}
