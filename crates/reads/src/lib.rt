// What a quick lookup looks at: the elements of each page, and the places of bytes in the image; no code.

#![tactic(auto)]
