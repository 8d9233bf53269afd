// A table as the first three tests let it in: its words with the number of their slots, and what is known of them.
ghost use Rattle.std.specs.Prelude.{◌≡◌, ◌≤◌, true, length};
ghost use Rattle.scope.specs.Numbers.{most_slots};
ghost use Rattle.scope.specs.Sound.{sound_table};
ghost use Rattle.scope.specs.Table.{table_words, word, root_word, count_word};

// A table with a good header.
#[derive(Clone, Copy)]
pub struct Table<'a> {
    pub words: &'a [u32],
    pub slots: usize,
    pub ghost room: { table_words slots ≡ length words.now },
    pub ghost some: { 1 ≤ slots },
    pub ghost most: { slots ≤ most_slots },
    pub ghost root: { word words.now root_word ≤ slots },
    pub ghost count: { word words.now count_word ≤ slots },
}

// A table that is sound: its words, and how many slots they are. It knows more of them than a `Table` does, so it is a
// type of its own.
#[derive(Clone, Copy)]
pub struct SoundTable<'a> {
    pub words: &'a [u32],
    pub slots: usize,
    pub ghost room: { table_words slots ≡ length words.now },
    pub ghost some: { 1 ≤ slots },
    pub ghost most: { slots ≤ most_slots },
    pub ghost sound: { sound_table words.now slots ≡ true },
}
