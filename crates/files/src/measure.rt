// How long a text is, also where a size is none.

// How many bytes the text of a tile of size p has; none if p is no size. A tile that a search finds has a size, but the search does not
// promise it, so it is asked here.
pub fn text(p: usize) -> usize {
    if size::takes_size(p) {
        promise::text_length(p)
    } else {
        0
    }
}
