// The rows of `cases` on what a page's repair depends on, computed, and pairs of volumes that show it. No code.
#![tactic(auto)]
